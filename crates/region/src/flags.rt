// Zone flags and region states.
ghost use Rattle.std.specs.Prelude.{◌≡◌, cond};
ghost use Rattle.region.specs.Zones.{zones_of, told, question8, flags_of, top_of, is_include, is_default};

use crate::{RegionHorizontalState, RegionSemanticState, RegionTopBottomState};
use layout::Refusal;

// Include where the flag is set.
impl From<bool> for RegionTopBottomState {
    ghost from_gives = { λ flag top. top ≡ top_of flag };

    fn from(flag: bool) -> RegionTopBottomState {
        if flag {
            RegionTopBottomState::Include
        } else {
            RegionTopBottomState::Exclude
        }
    }
}

// The state that the flags say, or refusal 8. The flags of a state that was read are those flags.
// By the Rust's names, as `to_decoded_zones`: TryFrom and From would say no more.
pub fn from_decoded_zones(flags: [bool; 6]) -> Result<RegionSemanticState, Refusal>
    ensures value { result ≡ zones_of flags }
    ensures result_value { told result ≡ cond (question8 flags) 0 8 }
    ensures s_value { (s : RegionSemanticState) → result ≡ Ok s → flags_of s ≡ flags }
{
    let horizontal = match flags {
        [true, true, true, true, true, _] => RegionHorizontalState::NoConstraints,
        [true, true, true, false, true, _] => RegionHorizontalState::BackExcluded,
        [true, false, true, true, true, _] => RegionHorizontalState::SideExcluded,
        [false, false, false, false, true, _] => RegionHorizontalState::CentreAndBack,
        [true, false, false, false, false, _] => RegionHorizontalState::ScreenOnly,
        [false, false, true, false, false, _] => RegionHorizontalState::SurroundOnly,
        _ => return Err(Refusal::Zones),
    };
    Ok(RegionSemanticState {
        horizontal,
        top: flags[5].into(),
    })
}

// Whether a top state is Include.
pub fn is_include(top: RegionTopBottomState) -> bool
    ensures { result ≡ is_include top }
{
    top == RegionTopBottomState::Include
}

// The flags of a state. They are read as that state.
pub fn to_decoded_zones(state: RegionSemanticState) -> [bool; 6]
    ensures value { result ≡ flags_of state }
    ensures result_value { zones_of result ≡ Ok state }
{
    let top = is_include(state.top);
    match state.horizontal {
        RegionHorizontalState::NoConstraints => [true, true, true, true, true, top],
        RegionHorizontalState::BackExcluded => [true, true, true, false, true, top],
        RegionHorizontalState::SideExcluded => [true, false, true, true, true, top],
        RegionHorizontalState::CentreAndBack => [false, false, false, false, true, top],
        RegionHorizontalState::ScreenOnly => [true, false, false, false, false, top],
        RegionHorizontalState::SurroundOnly => [false, false, true, false, false, top],
    }
}

// Whether a state selects the layout itself.
pub fn is_default(state: RegionSemanticState) -> bool
    ensures { result ≡ is_default state }
{
    state == RegionSemanticState::DEFAULT
}
