// Classes of speakers: which speakers a region keeps.
#![tactic(auto)]

mod classes;

pub use classes::{is_flc, is_outside_five, matches_bed_state};

// What a region does with a speaker of the bed: it keeps it or drops it, or the speaker has no class.
// Three names, and no Option<bool>: Some(false) says less than Dropped.
#[derive(Clone, Copy, Debug, PartialEq, Eq)]
pub enum BedMatch {
    Kept,
    Dropped,
    Unclassed,
}
