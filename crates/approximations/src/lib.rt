// Sine, cosine and the two approximations, each with an equation for its result on every double,
// powers of several values at once by them, and a change of each of several values. The upper crates use
// only these promises and the laws of proofs/Laws.antt.
#![tactic(auto)]

mod circular;
mod each;
mod exp2;
mod log2;
mod powers;

pub use circular::{cosine, sine};
pub use each::change_each;
pub use exp2::approx_exp2;
pub use log2::approx_log2;
pub use powers::{approx_exp2_each, approx_powers};
