// The knots and samples of the tables.
ghost use Rattle.std.specs.Prelude.{◌≡◌, ◌+◌, ◌≤◌, T, ◌⊎◌};
ghost use Rattle.std.specs.Float.Ieee.Scale.{finite};
ghost use Rattle.field.specs.Knots.{steps, radius_knot};

pub const MAX_RADIUS: f64 = 0.7;

// i / n: the samples i / 19 on X and Y and i / 7 on Z, and the centre knots i / 34 and i / 3.
pub(crate) fn step(i: usize, n: usize) -> f64
    requires { (i ≤ 64) × (n ≤ 64) }
    ensures { result ≡ steps n i }
{
    (i as f64) / (n as f64)
}

// A sample: a coordinate from 0 up to 1.
#[derive(Clone, Copy, Drop)]
pub(crate) struct Sample {
    pub(crate) at: f64,
    ghost number: { T (finite at) },
}

impl Sample {
    // Sample i of those up to the last one.
    pub(crate) fn new(i: usize, last: usize) -> Sample
        requires { (i ≤ last) × ((last ≡ 19) ⊎ (last ≡ 7)) }
        ensures { result.at ≡ steps last i }
    {
        Sample { at: step(i, last) }
    }
}

// 0.7 * i / 19
pub(crate) fn radius_knot(i: usize) -> f64
    requires { i ≤ 64 }
    ensures { result ≡ radius_knot i }
{
    MAX_RADIUS * (i as f64) / 19.0
}
