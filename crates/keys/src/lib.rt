// Keys: a layout and an epoch packed into 156 numbers, in one way only, so that equal keys are equal
// numbers; and the layout in a key. Numbers, and no struct: keys are compared bit by bit and kept side by side.
#![tactic(auto)]

mod active;
mod entry;
mod packing;
mod parts;
mod unpacking;

pub use active::active_count;
pub use packing::pack;
pub use parts::{ANCHOR_NAMES, DEPTH, EPOCH, FLAGS, LAYER_COUNTS, ROW_COUNTS, USED, XS, YS, ZS};
pub use unpacking::unpack;
