// Reading an extent, the kernel and the shaping.
#![tactic(auto)]

mod kernel;
mod radius;

pub use kernel::{ZERO_FIELD_THRESHOLD, compact_quartic_kernel, shaped, shaping_exponent};
pub use radius::{extent_radius, read_extent};

// The three components of an extent.
#[derive(Clone, Copy, Default)]
pub struct Extent {
    pub x: f64,
    pub y: f64,
    pub z: f64,
}

// What an extent is read as: the mean of its components, and the radius that follows from the mean.
#[derive(Clone, Copy)]
pub struct Reading {
    pub mean: u64,
    pub radius: f64,
}
