// Doubles: floor, square root, powers of two, bit patterns and tests of range, each with an equation for
// its result on every double. The upper crates use only these promises and the laws of
// proofs/Laws.antt.
#![tactic(auto)]

mod bits;
mod power;
mod range;
mod root;
mod whole;

pub use bits::{bits_of, of_bits};
pub use power::{floor_log2, pow2, pow2_i32};
pub use range::{clamp, is_between, is_finite};
pub use root::sqrt;
pub use whole::{SHIFT, floor, floor_near};
