// The room that a region state selects, made in place in a key.
#![tactic(auto)]

mod flags;
mod selection;
mod starts;

pub use selection::derive_selected_layout;
