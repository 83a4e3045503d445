// What the programs that replay answers share: commands and numbers read from a line of text, the layout
// that commands make, a centre that moves, a double's pattern as text, and a hash.
#![tactic(auto)]

ghost use Rattle.std.specs.Prelude.{◌≡◌, ◌<◌};
ghost use Rattle.replay.specs.Hex.{digit_of, hex_of, three_of, packed_of};

mod bits;
mod centre;
mod command;
mod hash;
mod key;
mod room;

pub use bits::Bits;
pub use centre::moved;
pub use command::{Command, Lettered};
pub use hash::{hash_doubles, mixed};
pub use key::key_of;
pub use room::{Room, channel};

// The value of a hexadecimal digit, of either case; any other byte has one too, where `to_digit` has none.
pub fn digit(c: u8) -> u64
    ensures value { result ≡ digit_of c }
    ensures small { result < 16 }
{
    let d = u64::from(c);
    if d < 58 { d % 16 } else { (d + 9) % 16 }
}

// The number that the first 16 hexadecimal digits stand for; 0 where there are fewer, and no Option: a
// public function that could not fail still can't, and all callers have 16.
pub fn hex(digits: &[u8]) -> u64
    ensures { result ≡ hex_of digits.now }
{
    digits.get(..16).map_or(0, |first| {
        first
            .iter()
            .fold(0, |n, c| n % 0x1000_0000_0000_0000 * 16 + digit(*c))
    })
}

// The number that the three digits in front stand for; 0 where the text has fewer, as for `hex`.
pub fn three(text: &[u8]) -> u64
    ensures { result ≡ three_of text.now }
{
    match text {
        [a, b, c, ..] => digit(*a) * 100 + digit(*b) * 10 + digit(*c),
        _ => 0,
    }
}

// The bytes as a number, the first lowest: the lowest 64 bits of it. `from_le_bytes` takes just eight.
pub fn packed(bytes: &[u8]) -> u64
    ensures { result ≡ packed_of bytes.now }
{
    bytes
        .iter()
        .rev()
        .fold(0, |n, c| n % 0x100_0000_0000_0000 * 256 + u64::from(*c))
}
