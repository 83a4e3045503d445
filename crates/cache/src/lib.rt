// The eight places of a selector: questions 11 to 14, and keys looked for and put.
#![tactic(auto)]

ghost use Rattle.std.specs.Prelude.{Some};
ghost use Rattle.cache.specs.Words.{word_text};

use std::fmt;

mod later_questions;
mod places;

pub use later_questions::later_no;
pub use places::{find, next_place, put, turned};

// What an accepted call says of its field.
#[derive(Clone, Copy, Debug, PartialEq, Eq)]
pub enum Word {
    Unused,
    Kept,
    Built,
}

// It is written in small letters.
impl fmt::Display for Word {
    ghost output = { λ w. Some (word_text w) };

    fn fmt<W: fmt::Write>(&self, f: &mut fmt::Formatter<W>) -> fmt::Result {
        f.write_str(match *self {
            Word::Unused => "unused",
            Word::Kept => "kept",
            Word::Built => "built",
        })
    }
}

// How many keys a selector holds, and which place is the oldest.
#[derive(Clone, Copy, Debug, PartialEq, Eq)]
pub struct Ring {
    pub count: usize,
    pub oldest: usize,
}
