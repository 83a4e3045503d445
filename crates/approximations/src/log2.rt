// The approximation of the logarithm to the base two, with the coefficients and the order of
// operations of extent.rs.
ghost use Rattle.std.specs.Prelude.{◌≡◌, T};
ghost use Rattle.approximations.specs.Log2.{log2_by, log2_of, in_normal};

use doubles::{floor_log2, is_finite, pow2};

const L1: f64 = 4.07934570;

const L0: f64 = 2.69311523;

const L2: f64 = 1.38623047;
// The least normal double, 2 ^ -1022, and 2 ^ 1023.
const LEAST: f64 = 2.2250738585072014e-308;

const MOST: f64 = 8.98846567431158e307;

// The polynomial in the mantissa, and the exponent.
fn log2_of(mantissa: f64, exponent: f64) -> f64
    ensures { result ≡ log2_by mantissa exponent }
{
    (mantissa * L1 - L0) - mantissa * mantissa * L2 + exponent
}

// Of a normal value below 2 ^ 1023: the mantissa has value's digits and the exponent field of 1/2.
pub(crate) fn log2_normal(value: f64) -> f64
    requires { T (in_normal value) }
    ensures { result ≡ log2_of value }
{
    let b = value.to_bits();
    let mantissa = f64::from_bits((b & 0xf_ffff_ffff_ffff) | 0x3fe0_0000_0000_0000);
    log2_of(mantissa, ((b >> 52) as f64) - 1022.0)
}

// Whether `log2_normal` takes it.
pub(crate) fn is_normal(value: f64) -> bool
    ensures { result ≡ in_normal value }
{
    (value >= LEAST) & (value < MOST)
}

// Of any value, by a division: subnormals, and from 2 ^ 1023 up.
fn log2_rest(value: f64) -> f64
    ensures { result ≡ log2_of value }
{
    if is_finite(value) & (value > 0.0) {
        let exponent = floor_log2(value) + 1;
        log2_of(value / pow2(exponent), exponent as f64)
    } else {
        f64::NEG_INFINITY
    }
}

// About the logarithm of value to the base two. Minus infinity where value is not finite, or not
// above 0.
pub fn approx_log2(value: f64) -> f64
    ensures { result ≡ log2_of value }
{
    if is_normal(value) {
        log2_normal(value)
    } else {
        log2_rest(value)
    }
}
