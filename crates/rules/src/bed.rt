// What a bed does with a speaker.
ghost use Rattle.std.specs.Prelude.{◌≡◌};
ghost use Rattle.region.specs.Zones.{is_no_constraints};
ghost use Rattle.classes.specs.Classes.{bed_of};
ghost use Rattle.rules.specs.Rules.{is_classed, is_kept};

use classes::{BedMatch, matches_bed_state};
use region::RegionHorizontalState;

// Whether the speaker of a name has a class. Beside `Bed::has_class`: callers may have no Bed.
pub fn is_classed(h: RegionHorizontalState, name: u64, five: bool) -> bool
    ensures { result ≡ is_classed (bed_of h name five) }
{
    matches_bed_state(h, name, five) != BedMatch::Unclassed
}

// The bed of a room: a horizontal state, and whether the room is five-x.
#[derive(Clone, Copy)]
pub struct Bed {
    pub horizontal: RegionHorizontalState,
    pub five: bool,
}

impl Bed {
    // Whether the speaker of a name has a class.
    pub fn has_class(self, name: u64) -> bool
        ensures { result ≡ is_classed (bed_of self.horizontal name self.five) }
    {
        is_classed(self.horizontal, name, self.five)
    }

    // Whether the speaker of a name is kept.
    pub fn keeps(self, name: u64) -> bool
        ensures { result ≡ is_kept (bed_of self.horizontal name self.five) }
    {
        matches_bed_state(self.horizontal, name, self.five) == BedMatch::Kept
    }
}

// Whether a horizontal state is NoConstraints.
pub fn is_no_constraints(h: RegionHorizontalState) -> bool
    ensures { result ≡ is_no_constraints h }
{
    h == RegionHorizontalState::NoConstraints
}
