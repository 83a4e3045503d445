// The square root.
ghost use Rattle.std.specs.Prelude.{◌≡◌, T};
ghost use Rattle.std.specs.Float.{binary64};
ghost use Rattle.std.specs.Float.Ieee.{lt};
ghost use Rattle.std.specs.Float.Ieee.Scale.{finite};
ghost use Rattle.doubles.specs.Arithmetic.{zero64};
ghost use Rattle.doubles.specs.Root.{sqrt_of, square_units, NearRoot};

// The square root of x to the nearest double. Zeros, the positive infinity and NaN stay themselves,
// and of a number below zero it is NaN. `nearest` says the same of an x above zero and finite without
// an algorithm: x lies between the squares of the two midpoints around the result. Every NaN that it
// makes is std's: the machine's would have a sign and digits of its own, which callers in C see.
pub fn sqrt(x: f64) -> f64
    ensures value { result ≡ sqrt_of binary64 x }
    ensures nearest { T (lt zero64 x) → T (finite x) → NearRoot (square_units x) result }
{
    let root = x.sqrt();
    if root.is_nan() { f64::NAN } else { root }
}
