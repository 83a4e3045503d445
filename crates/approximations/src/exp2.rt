// The approximation of 2 ^ x, with the coefficients and the order of operations of extent.rs.
ghost use Rattle.std.specs.Prelude.{◌≡◌, T};
ghost use Rattle.std.specs.Float.{binary64};
ghost use Rattle.std.specs.Float.Ieee.{to_signed};
ghost use Rattle.doubles.specs.Power.{pow2_of};
ghost use Rattle.approximations.specs.Exp2.{polynomial_of, finite_or_zero, NormalExponent, exp2_of};
ghost use Rattle.approximations.specs.Powers.{in_exponents};

use doubles::{floor, floor_near, is_finite, pow2};

const A1: f64 = 0.686279297;

const A2: f64 = 0.254821777;

const A3: f64 = 0.0588989258;

// 2 ^ 52 + 1023: a sum with it has the biased exponent in its lowest bits.
const BIAS: f64 = 4503599627371519.0;

fn polynomial(fraction: f64) -> f64
    ensures { result ≡ polynomial_of fraction }
{
    1.0 + A1 * fraction + A2 * fraction * fraction + A3 * fraction * fraction * fraction
}

// x where it is finite, and 0 where not.
fn finite_or_zero(x: f64) -> f64
    ensures { result ≡ finite_or_zero x }
{
    if is_finite(x) { x } else { 0.0 }
}

// 2 ^ n for a whole number n from -1022 to 1022. The shift drops all but the biased exponent.
fn power_near(n: f64) -> f64
    requires { NormalExponent n }
    ensures { result ≡ pow2_of binary64 (to_signed 31 n) }
{
    f64::from_bits((n + BIAS).to_bits() << 52)
}

// For a value from -1022 up and below 1023, of which the product is always finite.
pub(crate) fn exp2_near(value: f64) -> f64
    requires { T (in_exponents value) }
    ensures { result ≡ exp2_of value }
{
    let n = floor_near(value);
    polynomial(value - n) * power_near(n)
}

// Whether `exp2_near` takes it.
pub(crate) fn is_near(value: f64) -> bool
    ensures { result ≡ in_exponents value }
{
    (value >= -1022.0) & (value < 1023.0)
}

// For any value; `approx_exp2` uses it for the rest.
fn exp2_rest(value: f64) -> f64
    ensures { result ≡ exp2_of value }
{
    if !is_finite(value) {
        return 0.0;
    }
    let n = floor(value);
    if (n < -2147483648.0) | (n > 2147483647.0) {
        return 0.0;
    }
    finite_or_zero(polynomial(value - n) * pow2(std::num::truncating_f64_to_i64(n)))
}

// About 2 ^ value. 0 where value or the product is not finite, or where the floor does not fit an
// `i32`.
pub fn approx_exp2(value: f64) -> f64
    ensures { result ≡ exp2_of value }
{
    if is_near(value) {
        exp2_near(value)
    } else {
        exp2_rest(value)
    }
}
