// The spread field of a room: the axis responses, and the tables in the store.
#![tactic(auto)]

mod columns;
mod knots;
mod place;
mod response;
mod table;

pub use knots::MAX_RADIUS;
pub use place::{PLACE, STORE, fill_place};
pub use response::PI;

// Which coordinates of a list answer: one with weight 1, or one and the next with two weights.
#[derive(Clone, Copy)]
pub enum Pick {
    One(usize),
    Two(usize, f64, f64),
}
