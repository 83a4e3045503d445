// The gains of an object over a filled place of the store.
#![tactic(auto)]

mod diffuse;
mod gains;
mod knots;
mod place;
mod walls;

pub use gains::project;

// The radius up to which point gains have a share. A wall counts up to four times that distance, or up to
// four radii.
const SMALL_RADIUS: f64 = 0.05;

// Two knots, and where a value stands between them.
#[derive(Clone, Copy)]
pub struct Bracket {
    pub lower: usize,
    pub upper: usize,
    pub t: f64,
}

// The nearest wall with its distance: on X and Y whether it is the far one, at 1; on Z it is the far
// one always. A bool, which is made a number where it is used.
#[derive(Clone, Copy)]
pub enum Wall {
    X(bool, f64),
    Y(bool, f64),
    Z(f64),
}

// The blend: point gains alone, both with two weights, or field alone.
#[derive(Clone, Copy)]
pub enum Blend {
    Point,
    Both(f64, f64),
    Field,
}
