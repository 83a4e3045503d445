// Knots that rise from 0, and the two about a value.
ghost use Rattle.std.specs.Prelude.{◌≡◌, ◌+◌, ◌≤◌, ◌<◌, IsTrue, length, get_or};
ghost use Rattle.std.specs.List.{prefix_len};
ghost use Rattle.std.specs.Float.{nan};
ghost use Rattle.std.specs.Float.Ieee.{lt};
ghost use Rattle.doubles.specs.Arithmetic.{zero64};
ghost use Rattle.field.specs.Knots.{X, Z};
ghost use Rattle.gains.specs.Lookup.{at_knot, between_knots, bracket_of, centre_knots, radius_knots};
ghost use Rattle.gains.specs.Steps.Rising.{are_rising};

use crate::Bracket;
use doubles::SHIFT;

// i / 34
static WIDE: [f64; 35] = [
    0.0,
    0.029411764705882353,
    0.058823529411764705,
    0.08823529411764706,
    0.11764705882352941,
    0.14705882352941177,
    0.17647058823529413,
    0.20588235294117646,
    0.23529411764705882,
    0.2647058823529412,
    0.29411764705882354,
    0.3235294117647059,
    0.35294117647058826,
    0.38235294117647056,
    0.4117647058823529,
    0.4411764705882353,
    0.47058823529411764,
    0.5,
    0.5294117647058824,
    0.5588235294117647,
    0.5882352941176471,
    0.6176470588235294,
    0.6470588235294118,
    0.6764705882352942,
    0.7058823529411765,
    0.7352941176470589,
    0.7647058823529411,
    0.7941176470588235,
    0.8235294117647058,
    0.8529411764705882,
    0.8823529411764706,
    0.9117647058823529,
    0.9411764705882353,
    0.9705882352941176,
    1.0,
];

// i / 3
static HIGH: [f64; 4] = [0.0, 0.3333333333333333, 0.6666666666666666, 1.0];

// 0.7 * i / 19
static RADIUS: [f64; 20] = [
    0.0,
    0.03684210526315789,
    0.07368421052631578,
    0.11052631578947367,
    0.14736842105263157,
    0.18421052631578946,
    0.22105263157894733,
    0.25789473684210523,
    0.29473684210526313,
    0.33157894736842103,
    0.3684210526315789,
    0.4052631578947368,
    0.44210526315789467,
    0.4789473684210526,
    0.5157894736842105,
    0.5526315789473685,
    0.5894736842105263,
    0.6263157894736842,
    0.6631578947368421,
    0.7,
];

// Knots, and how many of them there are to a value of 1.
#[derive(Clone, Copy)]
pub(crate) struct Knots<'a> {
    at: &'a [f64],
    per_one: f64,
    ghost some: { 2 ≤ length at.now },
    ghost few: { length at.now ≤ 35 },
    ghost first: { get_or at.now 0 nan ≡ zero64 },
    ghost rising: { IsTrue (are_rising at.now) },
}

// The knots of a centre's x and y. A function for each table: each promises the definition's list for its own.
pub(crate) fn wide_knots() -> Knots<'static>
    ensures { result.at.now ≡ centre_knots X }
{
    Knots {
        at: &WIDE,
        per_one: 34.0,
    }
}

// The knots of a centre's z.
pub(crate) fn high_knots() -> Knots<'static>
    ensures { result.at.now ≡ centre_knots Z }
{
    Knots {
        at: &HIGH,
        per_one: 3.0,
    }
}

// The knots of a radius.
pub(crate) fn radius_knots() -> Knots<'static>
    ensures { result.at.now ≡ radius_knots }
{
    Knots {
        at: &RADIUS,
        per_one: 27.142857142857142,
    }
}

// At one knot.
fn at_knot(i: usize) -> Bracket
    ensures { result ≡ at_knot i }
{
    Bracket {
        lower: i,
        upper: i,
        t: 0.0,
    }
}

impl Knots<'_> {
    // A guess at the knot below value by its share of the knots: the sum with SHIFT has the whole number
    // nearest to share - 1/2 in its lowest bits. A share at a knot, or barely above, goes to the one before.
    fn guess(self, value: f64) -> usize
        ensures { result + 1 < length self.entry.at.now }
    {
        let s = value * self.per_one - 0.50000001 + SHIFT;
        if s >= SHIFT {
            let g = (s.to_bits() & 63) as usize;
            if g + 1 < self.at.len() {
                return g;
            }
        }
        0
    }

    // How many knots are below value: one more than the guess where that is right.
    fn below(self, value: f64) -> usize
        ensures { result ≡ prefix_len (λ x. lt x value) self.entry.at.now }
    {
        let g = self.guess(value);
        if (self.at[g] < value) & !(self.at[g + 1] < value) {
            return g + 1;
        }
        self.at.partition_point(|k| *k < value)
    }

    // Between knot k - 1 and knot k.
    fn between(self, value: f64, k: usize) -> Bracket
        requires { (1 ≤ k) × (k < length self.at.now) }
        ensures { result ≡ between_knots self.entry.at.now value k }
    {
        let a = self.at[k - 1];
        Bracket {
            lower: k - 1,
            upper: k,
            t: (value - a) / (self.at[k] - a),
        }
    }

    // The knots about value: the end one at or beyond an end. A NaN stays a NaN.
    pub(crate) fn bracket(self, value: f64) -> Bracket
        ensures value { result ≡ bracket_of self.entry.at.now value }
        ensures order { result.lower ≤ result.upper }
        ensures within { result.upper < length self.entry.at.now }
    {
        let last = self.at.len() - 1;
        if value <= 0.0 {
            return at_knot(0);
        }
        if !(value > 0.0) {
            return Bracket {
                t: value,
                ..at_knot(0)
            };
        }
        if value >= self.at[last] {
            return at_knot(last);
        }
        self.between(value, self.below(value))
    }
}
