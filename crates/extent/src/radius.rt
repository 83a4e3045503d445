// Reading an extent: its mean and its radius.
ghost use Rattle.std.specs.Prelude.{◌≡◌, position};
ghost use Rattle.std.specs.Float.Ieee.{le};
ghost use Rattle.layout.specs.Questions.{first_no};
ghost use Rattle.layout.specs.Refusals.{answer_by};
ghost use Rattle.extent.specs.Extent.{component, quantised, mean_of, radius_between, radius_of, extent_questions, read_of};

use crate::{Extent, Reading};
use doubles::{SHIFT, clamp, is_between};
use layout::{Refusal, ask};

const Q: f64 = 32768.0;

// What the radius is at a scalar.
#[derive(Clone, Copy)]
struct Knot {
    scalar: f64,
    radius: f64,
}

const KNOTS: [Knot; 5] = [
    Knot {
        scalar: 0.0,
        radius: 0.0,
    },
    Knot {
        scalar: 0.2,
        radius: 0.075,
    },
    Knot {
        scalar: 0.5,
        radius: 0.25,
    },
    Knot {
        scalar: 0.75,
        radius: 0.45,
    },
    Knot {
        scalar: 1.0,
        radius: 0.7,
    },
];

// The whole number nearest to 32768 * v, a half going to the even one, at most 32767; 0 for a v that is not
// from 0 to 1. The product is exact, and its sum with SHIFT is rounded to a whole number, whose lowest 16
// digits are the one wanted.
fn quantise(v: f64) -> u64
    ensures { result ≡ quantised v }
{
    // 0 for the others, as `quantised` says; read_extent has refused them before.
    if !is_between(0.0, 1.0, v) {
        return 0;
    }
    let q = (v * Q + SHIFT).to_bits() % 65536;
    q.min(32767)
}

// The radius between two knots.
fn between(a: Knot, b: Knot, scalar: f64) -> f64
    ensures { result ≡ radius_between a b scalar }
{
    let t = (scalar - a.scalar) / (b.scalar - a.scalar);
    a.radius + t * (b.radius - a.radius)
}

// The place of the first knot that s does not exceed.
fn first_from(knots: &[Knot], s: f64) -> Option<usize>
    ensures { result ≡ position (λ k. le s k.scalar) knots.now }
{
    knots.iter().position(|k| s <= k.scalar)
}

// The five-knot transfer from a scalar to a radius.
pub fn extent_radius(scalar: f64) -> f64
    ensures { result ≡ radius_of scalar }
{
    let s = clamp(scalar, 0.0, 1.0);
    // By place: with pairs of knots both ends and a NaN would need arms of their own.
    match first_from(&KNOTS, s) {
        Some(0) => KNOTS[0].radius,
        Some(i) => between(KNOTS[i - 1], KNOTS[i], s),
        None => KNOTS[4].radius,
    }
}

// The mean of the three components, 0 to 32767.
fn mean_of(e: Extent) -> u64
    ensures { result ≡ mean_of e }
{
    (quantise(e.x) + quantise(e.y) + quantise(e.z)) / 3
}

// Whether a component is finite and from 0 to 1.
fn is_component(v: f64) -> bool
    ensures { result ≡ component v }
{
    is_between(0.0, 1.0, v)
}

// The first of questions 7 (x), 18 (y) and 19 (z) that has a no.
fn extent_no(e: Extent) -> Result<(), Refusal>
    ensures { result ≡ answer_by (first_no (extent_questions e)) tt }
{
    ask(is_component(e.x), Refusal::ExtentX)?;
    ask(is_component(e.y), Refusal::ExtentY)?;
    ask(is_component(e.z), Refusal::ExtentZ)
}

// An extent's mean and its radius, or the first question that refuses it.
pub fn read_extent(e: Extent) -> Result<Reading, Refusal>
    ensures { result ≡ read_of e }
{
    extent_no(e)?;
    let mean = mean_of(e);
    Ok(Reading {
        mean,
        radius: extent_radius(mean as f64 / Q),
    })
}
