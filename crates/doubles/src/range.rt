// Tests of a double's range.
ghost use Rattle.std.specs.Prelude.{◌≡◌};
ghost use Rattle.std.specs.Float.Ieee.Scale.{finite};
ghost use Rattle.doubles.specs.Range.{is_between, clamp_to};

// Whether x is neither NaN nor an infinity.
pub fn is_finite(x: f64) -> bool
    ensures { result ≡ finite x }
{
    x.is_finite()
}

// Whether x is from low to high. NaN is from nothing to nothing.
pub fn is_between(low: f64, high: f64, x: f64) -> bool
    ensures { result ≡ is_between low high x }
{
    (low <= x) & (x <= high)
}

// x, or low where x is below it, or high where x is above that. NaN stays NaN, and -0 is not below 0.
// By hand: std's `clamp` asks that low is not above high, and this asks nothing.
pub fn clamp(x: f64, low: f64, high: f64) -> f64
    ensures { result ≡ clamp_to low high x }
{
    if x < low {
        low
    } else if x > high {
        high
    } else {
        x
    }
}
