// Rules: how a layer keeps its anchors under a region state.
#![tactic(auto)]

mod bed;
mod rule;

pub use bed::{Bed, is_classed, is_no_constraints};
pub use rule::{Rule, rule_of, stays_by};
