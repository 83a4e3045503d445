// Sine and cosine by alternating series: the stand-ins of the comparison with the Rust.
ghost use Rattle.std.specs.Prelude.{◌≡◌, ◌<◌, T, length};
ghost use Rattle.std.specs.Float.Ieee.{le};
ghost use Rattle.approximations.specs.Circular.{sine_of, cosine_of, sine_series, cosine_series, series, exact, half_h, complement_of};

// 1!, 3! to 15!
const ODD_FACTORIALS: [u64; 8] = [1, 6, 120, 5040, 362880, 39916800, 6227020800, 1307674368000];
// 0!, 2! to 16!
const EVEN_FACTORIALS: [u64; 9] = [
    1,
    2,
    24,
    720,
    40320,
    3628800,
    479001600,
    87178291200,
    20922789888000,
];
// The double nearest to pi / 2, and its half.
const H: f64 = 1.5707963267948966;

const HALF_H: f64 = 0.7853981633974483;
// The double nearest to pi / 2 - H, with the bits 3C91A62633145C07.
const L: f64 = 6.123233995736766e-17;

// c0 - y (c1 - y (c2 ...)), each c being 1 / factorial, rounded once.
fn alternating_series(factorials: &[u64], y: f64) -> f64
    requires factorials_nonzero { 0 < length factorials.now }
    requires factorials_exact { T (exact factorials.now) }
    ensures { result ≡ series y factorials.now }
{
    // By place: `split_last` would need an arm for no factorials, which no caller has.
    let last = factorials.len() - 1;
    let mut r = 1.0 / (factorials[last] as f64);
    // Not a fold: its closure would have to show that each factorial is exact as a double.
    for f in factorials[..last].iter().rev() {
        r = 1.0 / (*f as f64) - y * r;
    }
    r
}

// S(b): b times the series over 1!, 3! to 15! in b * b.
fn sine_series(b: f64) -> f64
    ensures { result ≡ sine_series b }
{
    b * alternating_series(&ODD_FACTORIALS, b * b)
}

// C(b): the series over 0!, 2! to 16! in b * b.
fn cosine_series(b: f64) -> f64
    ensures { result ≡ cosine_series b }
{
    alternating_series(&EVEN_FACTORIALS, b * b)
}

// Whether a is at most H / 2.
fn is_low(a: f64) -> bool
    ensures { result ≡ le a half_h }
{
    a <= HALF_H
}

// pi / 2 - a: H - a is exact for a from H / 2 to H, and L is what H leaves out.
fn complement(a: f64) -> f64
    ensures { result ≡ complement_of a }
{
    (H - a) + L
}

// The sine of a, meant for a from 0 to H and defined by the same formula everywhere. Written out, as
// `cosine` is: a function for both would need a contract longer than the two bodies.
pub fn sine(a: f64) -> f64
    ensures { result ≡ sine_of a }
{
    if is_low(a) {
        sine_series(a)
    } else {
        cosine_series(complement(a))
    }
}

// The cosine of a, meant for a from 0 to H and defined by the same formula everywhere.
pub fn cosine(a: f64) -> f64
    ensures { result ≡ cosine_of a }
{
    if is_low(a) {
        cosine_series(a)
    } else {
        sine_series(complement(a))
    }
}
