// The kernel and the shaping.
ghost use Rattle.std.specs.Prelude.{◌≡◌};
ghost use Rattle.extent.specs.Kernel.{kernel_of, quartic_of, positive, shaped_of, exponent_of};

use approximations::{approx_exp2, approx_log2, cosine};
use doubles::is_finite;

// Below it a radius has no field.
pub const ZERO_FIELD_THRESHOLD: f64 = 2.5e-5;

const KERNEL_COEFFICIENT: f64 = 16.8172606265625;

const HEIGHT_SCALE: f64 = 1.365909936;

// The compact quartic kernel at u, about a centre and with a radius; on Z with the height's cosine.
// A flag, as the public signature has it: a function for Z would call this one and multiply.
pub fn compact_quartic_kernel(u: f64, center: f64, radius: f64, z: bool) -> f64
    ensures { result ≡ kernel_of u center radius z }
{
    if radius < ZERO_FIELD_THRESHOLD {
        return 0.0;
    }
    let distance = (u - center) / 4.0;
    if (distance > radius) | (-distance > radius) {
        return 0.0;
    }
    let value = quartic(distance / radius);
    if !is_positive(value) {
        return 0.0;
    }
    if z {
        value * cosine(HEIGHT_SCALE * u)
    } else {
        value
    }
}

// 2 ^ (-16.8172606265625 * ratio ^ 4) by the approximation.
fn quartic(ratio: f64) -> f64
    ensures { result ≡ quartic_of ratio }
{
    approx_exp2(-KERNEL_COEFFICIENT * ratio * ratio * ratio * ratio)
}

// Whether x is finite and above 0.
fn is_positive(x: f64) -> bool
    ensures { result ≡ positive x }
{
    is_finite(x) & (x > 0.0)
}

// value ^ exponent by the approximations; 0 where value, or the result, is not above 0 or not finite.
pub fn shaped(value: f64, exponent: f64) -> f64
    ensures { result ≡ shaped_of value exponent }
{
    if value > 0.0 {
        let result = approx_exp2(exponent * approx_log2(value));
        if is_positive(result) {
            return result;
        }
    }
    0.0
}

pub fn shaping_exponent(radius: f64) -> f64
    ensures { result ≡ exponent_of radius }
{
    if radius <= 0.125 {
        6.0
    } else {
        6.86956501 - 6.95652199 * radius
    }
}
