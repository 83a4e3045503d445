// A place of the store, and each channel's responses in it.
ghost use Rattle.std.specs.Prelude.{◌≡◌, ℕ, ◌+◌, ◌*◌, ◌≤◌, ◌<◌, length, get_or};
ghost use Rattle.std.specs.Float.{nan};
ghost use Rattle.gains.specs.Lookup.{mixed, bracket_of, lookup_of};
ghost use Rattle.gains.specs.Diffuse.{response_x, response_y, response_z};

use crate::Bracket;
use crate::knots::{Knots, high_knots, radius_knots, wide_knots};
use approximations::change_each;
use layout::Centre;

// Where the tables of Y and Z begin; that of X begins in row 0.
const Y_TABLE: usize = 700;

const Z_TABLE: usize = 1400;

// The end responses of each axis: the near wall's row, and the far wall's after it.
pub(crate) const X_ENDS: usize = 1480;

pub(crate) const Y_ENDS: usize = 1482;

pub(crate) const Z_ENDS: usize = 1484;

// A place of the store: its 1486 rows of n numbers begin at `base`, as `place_rows` counts them. Only a
// deep one has Z.
#[derive(Clone, Copy)]
pub(crate) struct Place<'a> {
    pub(crate) store: &'a [f64],
    pub(crate) base: usize,
    pub(crate) n: usize,
    pub(crate) deep: bool,
    ghost few: { n ≤ 24 },
    ghost in_store: { base + 1486 * n ≤ length store.now },
}

// Each channel's response on each axis.
#[derive(Drop)]
pub(crate) struct Responses {
    pub(crate) x: [f64; 24],
    pub(crate) y: [f64; 24],
    pub(crate) z: [f64; 24],
}

// a at t = 0 to b at t = 1.
fn mix(a: f64, b: f64, t: f64) -> f64
    ensures { result ≡ mixed a b t }
{
    a + t * (b - a)
}

impl<'a> Place<'a> {
    ghost use Rattle.gains.specs.Steps.Rows.{rows_of};

    // Each channel's number in row i.
    pub(crate) fn row(&self, i: usize) -> &'a [f64]
        requires { i < 1486 }
        ensures length { length result.now ≡ self.now.n }
        ensures numbers { (k : ℕ) → k < self.now.n → get_or result.now k nan
            ≡ rows_of self.now k i }
    {
        let from = self.base + i * self.n;
        &self.store[from..from + self.n]
    }

    // Each channel's response on an axis, whose table begins in row i and has 20 rows for each of these
    // centre knots: between four rows, radius first.
    fn on_axis(&self, out: &mut [f64; 24], i: usize, knots: Knots, value: f64, r: Bracket)
        requires in_place { i + length knots.at.now * 20 ≤ 1480 }
        requires radius { (r.lower ≤ r.upper) × (r.upper < 20) }
        ensures { (k : ℕ) → k < self.now.n → get_or out.new k nan
            ≡ lookup_of (λ (j : ℕ). rows_of self.now k (i + j))
            (bracket_of knots.entry.at.now value) r }
    {
        let c = knots.bracket(value);
        let p = self.row(i + (c.lower * 20 + r.lower));
        let q = self.row(i + (c.lower * 20 + r.upper));
        let u = self.row(i + (c.upper * 20 + r.lower));
        let v = self.row(i + (c.upper * 20 + r.upper));
        change_each(&mut out[..self.n], |k, _| {
            mix(mix(p[k], q[k], r.t), mix(u[k], v[k], r.t), c.t)
        });
    }

    // Each channel's response on each axis. Without Z that of Z is 1.
    // Into lent numbers: a kept call that has them returned takes 8 % more instructions.
    pub(crate) fn respond(&self, out: &mut Responses, c: Centre, radius: f64)
        ensures x { (k : ℕ) → k < self.now.n → get_or out.new.x k nan
            ≡ response_x (rows_of self.now k) c radius }
        ensures y { (k : ℕ) → k < self.now.n → get_or out.new.y k nan
            ≡ response_y (rows_of self.now k) c radius }
        ensures z { (k : ℕ) → k < self.now.n → get_or out.new.z k nan
            ≡ response_z (rows_of self.now k) self.now.deep c radius }
    {
        let r = radius_knots().bracket(radius);
        if self.deep {
            self.on_axis(&mut out.z, Z_TABLE, high_knots(), c.z, r);
        } else {
            out.z = [1.0; 24];
        }
        self.on_axis(&mut out.x, 0, wide_knots(), c.x, r);
        self.on_axis(&mut out.y, Y_TABLE, wide_knots(), c.y, r);
    }
}
