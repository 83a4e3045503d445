// Powers of several values at once, in loops that have no branch where all values are in the common
// range.
ghost use Rattle.std.specs.Prelude.{◌≡◌, true, Float, map};
ghost use Rattle.std.specs.List.{All};
ghost use Rattle.doubles.specs.Arithmetic.{◌⊗◌};
ghost use Rattle.approximations.specs.Exp2.{exp2_of};
ghost use Rattle.approximations.specs.Log2.{log2_of};
ghost use Rattle.approximations.specs.Powers.{power_of};

use crate::each::change_each;
use crate::exp2::{approx_exp2, exp2_near, is_near};
use crate::log2::{approx_log2, is_normal, log2_normal};

// Whether all of y are common. It stops nowhere, so that its loop has no branch.
fn are_common<C: Fn(f64) -> bool>(y: &[f64], is_common: C) -> bool
    requires { C.IsAlwaysCallable is_common }
    ensures { result ≡ true → All (λ v. C.post is_common v true) y.now }
{
    y.iter().fold(true, |all, v| all & is_common(*v))
}

// Two to each of y.
pub fn approx_exp2_each(y: &mut [f64])
    ensures { y.new ≡ map exp2_of y.old }
{
    if are_common(y, is_near) {
        change_each(y, |_, v| exp2_near(v));
    } else {
        change_each(y, |_, v| approx_exp2(v));
    }
}

// The logarithms of y, times the exponent. With approx_exp2_each it shares a choice of two lines: one
// function of both would take the test and both maps.
fn logs(y: &mut [f64], exponent: f64)
    ensures { y.new ≡ map (λ (v : Float). exponent ⊗ log2_of v) y.old }
{
    if are_common(y, is_normal) {
        change_each(y, |_, v| exponent * log2_normal(v));
    } else {
        change_each(y, |_, v| exponent * approx_log2(v));
    }
}

// Each of y to the power of exponent, by the approximations.
pub fn approx_powers(y: &mut [f64], exponent: f64)
    ensures { y.new ≡ map (power_of exponent) y.old }
{
    logs(y, exponent);
    approx_exp2_each(y);
}
