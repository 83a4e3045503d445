// The diffuse field of a place of the store.
ghost use Rattle.std.specs.Prelude.{◌≡◌, cond, ℕ, ◌≤◌, ◌<◌, Float, length, get_or};
ghost use Rattle.std.specs.Float.{nan};
ghost use Rattle.std.specs.Float.Ieee.{lt};
ghost use Rattle.doubles.specs.Arithmetic.{◌⊗◌, ◌⊘◌, zero64};
ghost use Rattle.approximations.specs.Exp2.{exp2_of};
ghost use Rattle.approximations.specs.Log2.{log2_of};
ghost use Rattle.extent.specs.Kernel.{shaped_of, exponent_of};
ghost use Rattle.gains.specs.Lookup.{channels};
ghost use Rattle.gains.specs.Diffuse.{lambda_of, compensated_of, end_product, diffuse_of};
ghost use Rattle.gains.specs.Steps.Gathered.{above_before, Gathered, scattered};
ghost use Rattle.gains.specs.Steps.Rows.{rows_of};

use crate::place::{Place, Responses, X_ENDS, Y_ENDS, Z_ENDS};
use crate::walls::{distance_of, nearest_wall};
use crate::{SMALL_RADIUS, Wall};
use approximations::{approx_exp2_each, approx_log2, change_each};
use extent::{ZERO_FIELD_THRESHOLD, compact_quartic_kernel, shaped, shaping_exponent};
use layout::Centre;

const RESPONSE_SCALE: f64 = 0.31640625;

// What the responses at a wall are made of: each channel's number there, the kernel there, and the
// responses of the other two axes.
#[derive(Clone, Copy)]
struct End<'a, 'b> {
    numbers: &'a [f64],
    kernel: f64,
    a: &'b [f64; 24],
    b: &'b [f64; 24],
}

// How much the wall's response counts.
fn lambda(distance: f64, radius: f64) -> f64
    ensures { result ≡ lambda_of distance radius }
{
    let near = (distance / 4.0 <= radius) | (distance / 4.0 <= SMALL_RADIUS);
    if near & (radius >= ZERO_FIELD_THRESHOLD) {
        25.0 * distance * distance * distance / (4.0 * radius)
    } else {
        0.0
    }
}

// The logarithms of the fields above 0 over the exponent, one after another, and how many there are.
// Into lent numbers: std's collect would allocate, and the crate has no heap.
fn gather(out: &mut [f64], fields: &[f64], exponent: f64) -> usize
    requires { length fields.now ≤ length out.old }
    ensures few { result ≤ length fields.now }
    ensures value { result ≡ above_before fields.now (length fields.now) }
    ensures gathered { Gathered (λ (x : Float). log2_of x ⊘ exponent) fields.now
        (length fields.now) out.new }
{
    let mut m = 0usize;
    for field in fields {
        if *field > 0.0 {
            out[m] = approx_log2(*field) / exponent;
            m += 1;
        }
    }
    m
}

// Puts one value after another where the field is above 0, and 0 elsewhere.
// Their place is counted: no zip pairs them, and an iterator's next is an Option that has to be unwrapped.
fn scatter(out: &mut [f64], gathered: &[f64])
    requires { length out.old ≤ length gathered.now }
    ensures { out.new ≡ channels (length out.old) (scattered out.old gathered.now) }
{
    let mut m = 0usize;
    for field in out.iter_mut() {
        if *field > 0.0 {
            *field = gathered[m];
            m += 1;
        } else {
            *field = 0.0;
        }
    }
}

// field ^ (1 / exponent) by the approximations; 0 where the field is not above 0.
fn unshape(out: &mut [f64], exponent: f64)
    requires { length out.old ≤ 24 }
    ensures { out.new ≡ channels (length out.old) (λ (k : ℕ). cond (lt zero64 (get_or out.old k nan))
        (exp2_of (log2_of (get_or out.old k nan) ⊘ exponent)) zero64) }
{
    let mut l = [0.0f64; 24];
    let m = gather(&mut l, out, exponent);
    approx_exp2_each(&mut l[..m]);
    scatter(out, &l);
}

// Shapes each channel with the response at a wall. Short loops, one for each step, run faster than
// one long one.
fn near_wall(out: &mut [f64], end: &End, radius: f64, weight: f64)
    requires { (length out.old ≤ 24) × (length out.old ≡ length end.now.numbers.now) }
    ensures { out.new ≡ channels (length out.old) (λ (k : ℕ). compensated_of (get_or out.old k nan)
        (shaped_of (end.now.kernel ⊗ get_or end.now.numbers.now k nan) (exponent_of radius)
        ⊗ get_or end.now.a.now k nan ⊗ get_or end.now.b.now k nan) weight (exponent_of radius)) }
{
    let exponent = shaping_exponent(radius);
    let mut ends = [0.0f64; 24];
    change_each(&mut ends[..out.len()], |k, _| {
        shaped(end.kernel * end.numbers[k], exponent)
    });
    change_each(out, |k, inside| {
        RESPONSE_SCALE * (inside + weight * (ends[k] * end.a[k] * end.b[k]))
    });
    unshape(out, exponent);
}

// What the responses at a wall are made of: an arm for each wall, for they differ in every value of `End`.
// Place, centre and radius come one by one, as `diffuse` has them from its caller.
fn end_at<'a, 'b>(
    p: &Place<'a>,
    wall: Wall,
    c: Centre,
    radius: f64,
    s: &'b Responses,
) -> End<'a, 'b>
    ensures length { length result.numbers.now ≡ p.now.n }
    ensures product { (k : ℕ) → k < p.now.n
        → shaped_of (result.kernel ⊗ get_or result.numbers.now k nan) (exponent_of radius)
        ⊗ get_or result.a.now k nan ⊗ get_or result.b.now k nan
        ≡ end_product wall (rows_of p.now k) c radius
        (get_or s.now.x k nan) (get_or s.now.y k nan) (get_or s.now.z k nan) }
{
    match wall {
        Wall::X(far, _) => End {
            numbers: p.row(X_ENDS + usize::from(far)),
            kernel: compact_quartic_kernel(f64::from(u8::from(far)), c.x, radius, false),
            a: &s.y,
            b: &s.z,
        },
        Wall::Y(far, _) => End {
            numbers: p.row(Y_ENDS + usize::from(far)),
            kernel: compact_quartic_kernel(f64::from(u8::from(far)), c.y, radius, false),
            a: &s.x,
            b: &s.z,
        },
        Wall::Z(_) => End {
            numbers: p.row(Z_ENDS + 1),
            kernel: compact_quartic_kernel(1.0, c.z, radius, true),
            a: &s.x,
            b: &s.y,
        },
    }
}

// The diffuse field before it is normalised.
pub(crate) fn diffuse(out: &mut [f64], p: &Place, c: Centre, radius: f64)
    requires { length out.old ≡ p.now.n }
    ensures { out.new ≡ channels p.now.n (λ (k : ℕ).
        diffuse_of (rows_of p.now k) p.now.deep c radius) }
{
    let mut s = Responses {
        x: [0.0; 24],
        y: [0.0; 24],
        z: [0.0; 24],
    };
    p.respond(&mut s, c, radius);
    change_each(out, |k, _| s.x[k] * s.y[k] * s.z[k]);
    let wall = nearest_wall(c, p.deep);
    let weight = lambda(distance_of(wall), radius);
    if weight != 0.0 {
        near_wall(out, &end_at(p, wall, c, radius, &s), radius, weight);
    }
}
