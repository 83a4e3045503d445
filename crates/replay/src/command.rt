// What a line of a script of numbers says.
ghost use Rattle.std.specs.Prelude.{◌≡◌};
ghost use Rattle.replay.specs.Command.{command_of, lettered_of};

use crate::{hex, three};

// A number of three digits, and a value. A program matches the number where it obeys the command, and it
// goes nowhere else.
#[derive(Clone, Copy, Debug, PartialEq, Eq)]
pub struct Command {
    pub code: u64,
    pub value: u64,
}

// Of three digits, a space, 16 hexadecimal digits and a line feed.
impl From<[u8; 21]> for Command {
    ghost from_gives = { λ line c. c ≡ command_of line };

    fn from(line: [u8; 21]) -> Command {
        Command {
            code: three(&line),
            value: hex(&line[4..]),
        }
    }
}

// A letter, and a value. The letter, too, is matched where it is obeyed, and goes nowhere else. Apart from
// `Command`, whose number has three digits.
#[derive(Clone, Copy, Debug, PartialEq, Eq)]
pub struct Lettered {
    pub letter: u8,
    pub value: u64,
}

// Of a letter, a space, 16 hexadecimal digits and a line feed.
impl From<[u8; 19]> for Lettered {
    ghost from_gives = { λ line c. c ≡ lettered_of line };

    fn from(line: [u8; 19]) -> Lettered {
        Lettered {
            letter: line[0],
            value: hex(&line[2..]),
        }
    }
}
