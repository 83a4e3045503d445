// Why a call is refused.
ghost use Rattle.std.specs.Prelude.{◌≡◌, if◌then◌else◌, Some, Ok, Err};
ghost use Rattle.std.specs.Fmt.{decimal};
ghost use Rattle.layout.specs.Refusals.{number_of};

use std::fmt;

// The questions of document 01, by what each asks after; a refusal is the first whose answer is no.
#[derive(Clone, Copy, Debug, PartialEq, Eq)]
pub enum Refusal {
    Channels = 1,
    Layers = 2,
    Active = 3,
    Counts = 4,
    Order = 5,
    Anchors = 6,
    ExtentX = 7,
    Zones = 8,
    Selection = 9,
    Classes = 10,
    Centre = 11,
    Points = 12,
    Slices = 13,
    State = 14,
    ExtentY = 18,
    ExtentZ = 19,
}

impl Refusal {
    // The question's number.
    pub fn number(self) -> u64
        ensures { result ≡ number_of self }
    {
        self as u64
    }
}

// A question's answer: nothing for a yes, the refusal for a no.
pub fn ask(yes: bool, no: Refusal) -> Result<(), Refusal>
    ensures { result ≡ (if yes then Ok tt else Err no) }
{
    if yes { Ok(()) } else { Err(no) }
}

// It is written as its number.
impl fmt::Display for Refusal {
    ghost output = { λ r. Some (decimal (number_of r)) };

    fn fmt<W: fmt::Write>(&self, f: &mut fmt::Formatter<W>) -> fmt::Result {
        let number = self.number();
        write!(f, "{number}")
    }
}
