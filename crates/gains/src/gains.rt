// Normalising and the blend of point gains and field.
ghost use Rattle.std.specs.Prelude.{◌≡◌, length};
ghost use Rattle.doubles.specs.Norm.{sum_squares};
ghost use Rattle.gains.specs.Gains.{normalized_of, blend_of, blended, clamped_centre, projectable, projected};

use crate::diffuse::diffuse;
use crate::place::Place;
use crate::{Blend, SMALL_RADIUS};
use approximations::{change_each, cosine, sine};
use doubles::{clamp, is_finite, sqrt};
use extent::{Reading, ZERO_FIELD_THRESHOLD};
use field::{PI, PLACE, STORE};
use layout::Centre;

// The squares folded in channel order from 0: std's `sum` begins at -0.
fn sum_squares(v: &[f64]) -> f64
    ensures { result ≡ sum_squares v.now }
{
    v.iter().fold(0.0, |sum, x| sum + *x * *x)
}

// Divides by the root of the folded squares; all 0 where the sum is 0 or not finite.
fn normalize(v: &mut [f64])
    ensures { v.new ≡ normalized_of v.old }
{
    let sum = sum_squares(v);
    if is_finite(sum) & (sum > 0.0) {
        let root = sqrt(sum);
        change_each(v, |_, x| x / root);
    } else {
        v.fill(0.0);
    }
}

// Which gains go out: by the mean and the radius.
fn blend_of(mean: u64, radius: f64) -> Blend
    ensures { result ≡ blend_of mean radius }
{
    if (mean == 0) | (radius < ZERO_FIELD_THRESHOLD) {
        return Blend::Point;
    }
    if radius <= SMALL_RADIUS {
        let a = clamp(20.0 * radius, 0.0, 1.0);
        return Blend::Both(0.5 * cosine(PI * a / 2.0), 0.5 * sine(PI * a / 2.0));
    }
    Blend::Field
}

fn clamped(c: Centre) -> Centre
    ensures { result ≡ clamped_centre c }
{
    Centre {
        x: clamp(c.x, 0.0, 1.0),
        y: clamp(c.y, 0.0, 1.0),
        z: clamp(c.z, 0.0, 1.0),
    }
}

// The blend of point gains and field.
fn mix(gains: &mut [f64], points: &[f64], blend: Blend)
    requires { length points.now ≡ length gains.old }
    ensures { gains.new ≡ blended blend points.now gains.old }
{
    match blend {
        Blend::Point => {
            gains.copy_from_slice(points);
            return;
        }
        Blend::Both(a, b) => change_each(gains, |k, x| a * points[k] + b * x),
        Blend::Field => change_each(gains, |_, x| 0.5 * x),
    }
    normalize(gains);
}

// A place of the store, at most 24 channels, and point gains and slots for each.
fn is_projectable(size: usize, p: usize, n: usize, given: usize, slots: usize) -> bool
    ensures { result ≡ projectable size p n given slots }
{
    (p < 8) & (n <= 24) & (STORE <= size) & (n <= given) & (n <= slots)
}

// The gains of an object over place p of the store: n channels, and whether the field has Z. False,
// and nothing is written, where it is not projectable: yes or no is all there is to tell, and a Result of
// nothing would say no more. The numbers of a place stay apart: a Place would ask of callers what is tested
// here.
pub fn project(
    gains: &mut [f64],
    store: &[f64],
    p: usize,
    n: usize,
    deep: bool,
    reading: Reading,
    c: Centre,
    points: &[f64],
) -> bool
    ensures value { result
        ≡ projectable (length store.now) p n (length points.now) (length gains.old) }
    ensures gains_after { gains.new ≡ projected store.now p n deep reading.mean reading.radius c
        points.now gains.old }
{
    if !is_projectable(store.len(), p, n, points.len(), gains.len()) {
        return false;
    }
    let out = &mut gains[..n];
    let blend = blend_of(reading.mean, reading.radius);
    if !matches!(blend, Blend::Point) {
        let place = Place {
            store,
            base: PLACE * p,
            n,
            deep,
        };
        diffuse(out, &place, clamped(c), reading.radius);
        normalize(out);
    }
    mix(out, &points[..n], blend);
    true
}
