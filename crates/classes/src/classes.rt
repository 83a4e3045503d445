// Classes of speakers, and what a horizontal state keeps of them.
ghost use Rattle.std.specs.Prelude.{◌≡◌};
ghost use Rattle.classes.specs.Classes.{classes_of, keeps, bed_of, outside_five, is_flc};

use crate::BedMatch;
use region::RegionHorizontalState;

// The sixteen names, packed with the first byte lowest: a match over numbers is the form that document 01
// names.
const FL: u64 = 0x4c46;

const FR: u64 = 0x5246;

const FC: u64 = 0x4346;

const FLC: u64 = 0x634c46;

const FRC: u64 = 0x635246;

const LS: u64 = 0x734c;

const RS: u64 = 0x7352;

const SIL: u64 = 0x4c6953;

const SIR: u64 = 0x526953;

const LB: u64 = 0x624c;

const RB: u64 = 0x6252;

const BL: u64 = 0x4c42;

const BR: u64 = 0x5242;

const BC: u64 = 0x4342;

const LW: u64 = 0x774c;

const RW: u64 = 0x7752;

// The classes of a speaker.
#[derive(Clone, Copy, Default)]
struct Classes {
    screen: bool,
    centre: bool,
    surround: bool,
    back: bool,
    side: bool,
}

// The classes of the speaker of a name, where the name has any.
fn classes_of(name: u64, five: bool) -> Option<Classes>
    ensures { result ≡ classes_of name five }
{
    match name {
        FL | FR | FLC | FRC => Some(Classes {
            screen: true,
            ..Classes::default()
        }),
        FC => Some(Classes {
            screen: true,
            centre: true,
            ..Classes::default()
        }),
        LS | RS => Some(Classes {
            surround: true,
            back: five,
            side: !five,
            ..Classes::default()
        }),
        SIL | SIR => Some(Classes {
            surround: true,
            side: !five,
            ..Classes::default()
        }),
        LB | RB | BL | BR | BC => Some(Classes {
            back: true,
            ..Classes::default()
        }),
        LW | RW => Some(Classes {
            side: !five,
            ..Classes::default()
        }),
        _ => None,
    }
}

// Whether a horizontal state keeps a speaker.
fn is_kept(state: RegionHorizontalState, s: Classes) -> bool
    ensures { result ≡ keeps state s }
{
    match state {
        RegionHorizontalState::NoConstraints => true,
        RegionHorizontalState::BackExcluded => !s.back,
        RegionHorizontalState::SideExcluded => !s.side,
        RegionHorizontalState::CentreAndBack => s.centre | s.back,
        RegionHorizontalState::ScreenOnly => s.screen,
        RegionHorizontalState::SurroundOnly => s.surround,
    }
}

// What a horizontal state does with the speaker of a name.
pub fn matches_bed_state(state: RegionHorizontalState, name: u64, five: bool) -> BedMatch
    ensures { result ≡ bed_of state name five }
{
    match classes_of(name, five) {
        None => BedMatch::Unclassed,
        Some(s) if is_kept(state, s) => BedMatch::Kept,
        Some(_) => BedMatch::Dropped,
    }
}

// Whether a name is one of those that five-x has not.
pub fn is_outside_five(name: u64) -> bool
    ensures { result ≡ outside_five name }
{
    matches!(name, LB | RB | BL | BR | LW | RW)
}

// Whether a name is FLc.
pub fn is_flc(name: u64) -> bool
    ensures { result ≡ is_flc name }
{
    name == FLC
}
