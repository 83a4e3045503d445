// Regions: what the zone flags say.
#![tactic(auto)]

ghost use Rattle.std.specs.Prelude.{◌≡◌};
ghost use Rattle.region.specs.Zones.{default_state};

mod flags;

pub use flags::{from_decoded_zones, is_default, is_include, to_decoded_zones};

#[derive(Clone, Copy, Debug, PartialEq, Eq)]
pub enum RegionHorizontalState {
    NoConstraints,
    BackExcluded,
    SideExcluded,
    CentreAndBack,
    ScreenOnly,
    SurroundOnly,
}

#[derive(Clone, Copy, Debug, PartialEq, Eq)]
pub enum RegionTopBottomState {
    Include,
    Exclude,
}

// A horizontal state with a top state beside it.
#[derive(Clone, Copy, Debug, PartialEq, Eq)]
pub struct RegionSemanticState {
    pub horizontal: RegionHorizontalState,
    pub top: RegionTopBottomState,
}

impl RegionSemanticState {
    // The state that selects the layout itself.
    pub const DEFAULT: RegionSemanticState = RegionSemanticState {
        horizontal: RegionHorizontalState::NoConstraints,
        top: RegionTopBottomState::Include,
    };
}

// Not derived: `is_default` compares with the const, and `default()` is no const.
impl Default for RegionSemanticState {
    ghost is_default = { λ s. s ≡ default_state };

    fn default() -> RegionSemanticState
        ensures { result ≡ default_state }
    {
        RegionSemanticState::DEFAULT
    }
}
