// The channels of a layout: which are active, valid names, and the place of a name among others.
#![tactic(auto)]

mod channels;
mod name;
mod places;

pub use channels::{active_count, active_names, covered};
pub use name::is_name;
pub use places::index_of;
