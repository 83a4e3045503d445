// A key with just some of its anchors: empty rows and layers go, what stays moves to the front.
#![tactic(auto)]

mod kept;

pub use kept::pack_kept;
