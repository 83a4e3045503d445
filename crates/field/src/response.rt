// The axis responses: how much each active channel answers to a coordinate on X, Y or Z.
//
// On each axis groups of coordinates are looked at, and each coordinate stands for a part of the
// anchors: on X the groups are the rows and each anchor is a part; on Y the groups are the layers
// and each row is a part; on Z all layers are one group and each layer is a part.
ghost use Rattle.std.specs.Prelude.{◌≡◌, ℕ, ◌+◌, ◌-◌, ◌^◌, ◌≤◌, ◌<◌, [], T, length, get_or, take};
ghost use Rattle.std.specs.Float.{nan};
ghost use Rattle.std.specs.Float.Ieee.{lt};
ghost use Rattle.std.specs.Float.Ieee.Scale.{finite};
ghost use Rattle.std.specs.List.{prefix_len};
ghost use Rattle.field.specs.Knots.{steps};
ghost use Rattle.field.specs.Responses.{two_at, pick_of, layer_pick};
ghost use Rattle.field.specs.Steps.Filling.{no_responses};
ghost use Rattle.field.specs.Steps.Flat.{shifted, pick_end, added_at, part_at, pick_added};
ghost use Rattle.field.specs.Steps.Flat.{response_added, Parted, Grouped};

use crate::Pick;
use crate::knots::Sample;
use approximations::{cosine, sine};
use doubles::floor;

pub const PI: f64 = 3.141592653589793;

// The two weights at t between coordinate i and the next.
fn pair(i: usize, t: f64) -> Pick
    ensures { result ≡ two_at i t }
{
    Pick::Two(i, cosine(PI * t / 2.0), sine(PI * t / 2.0))
}

// How many coordinates, from the front, are below u.
// From the front: `prefix_len` holds of coordinates in any order, `partition_point` of rising ones.
fn count_below(v: &[f64], u: f64) -> usize
    ensures { result ≡ prefix_len (λ x. lt x u) v.now }
{
    v.iter().take_while(|x| **x < u).count()
}

// The end coordinate at or beyond an end, else the two neighbours of u. What is required of the coordinates
// stands here and twice below: a type for them would be made for each group and sample.
fn neighbours(v: &[f64], sample: Sample) -> Pick
    requires some { 1 ≤ length v.now }
    requires number { T (finite (get_or v.now 0 nan)) }
    ensures { result ≡ pick_of v.now sample.at }
{
    let u = sample.at;
    let last = v.len() - 1;
    if u <= v[0] {
        return Pick::One(0);
    }
    if u >= v[last] {
        return Pick::One(last);
    }
    let k = count_below(v, u);
    let low = v[k - 1];
    pair(k - 1, (u - low) / (v[k] - low))
}

// Of the layers: with two by the coordinate alone, with three or more by z like rows.
fn selected_layers(zs: &[f64], sample: Sample) -> Pick
    requires some { 1 ≤ length zs.now }
    requires number { T (finite (get_or zs.now 0 nan)) }
    ensures { result ≡ layer_pick zs.now sample.at }
{
    let u = sample.at;
    if zs.len() != 2 {
        return neighbours(zs, sample);
    }
    if u <= 0.0 {
        return Pick::One(0);
    }
    if floor(32768.0 * u) >= 32767.0 {
        return Pick::One(1);
    }
    pair(0, u)
}

impl Pick {
    // The same among coordinates that begin at a.
    fn shifted(self, a: usize) -> Pick
        requires { a + pick_end self < 2 ^ 64 }
        ensures { result ≡ shifted a self }
    {
        match self {
            Pick::One(i) => Pick::One(a + i),
            Pick::Two(i, v, w) => Pick::Two(a + i, v, w),
        }
    }
}

// Coordinates on an axis, and the anchors that each stands for: coordinate i of v has the anchors
// from parts[i] up to parts[i + 1], group g the coordinates from groups[g] up to groups[g + 1], and
// anchor a is that of the active channel at[a].
// Offsets into two slices, as a layout counts its parts: a slice of slices would need a heap.
#[derive(Drop)]
pub(crate) struct Axis<'a> {
    pub(crate) at: &'a [usize],
    pub(crate) parts: &'a [usize],
    pub(crate) v: &'a [f64],
    pub(crate) groups: &'a [usize],
    ghost grouped: { Grouped v.now groups.now (length groups.now - 1) },
    ghost parted: { Parted at.now parts.now (length v.now) },
}

impl<'a> Axis<'a> {
    // Adds w to the response, in a row, of the channel of each anchor of coordinate i.
    // By place: a slice of `at` asks that parts rise, a further fact of all three axes.
    fn add_part(&self, row: &mut [f64; 24], i: usize, w: f64)
        requires { i < length self.now.v.now }
        ensures { row.new ≡ added_at w (part_at self.now.at.now self.now.parts.now i) row.old }
    {
        for a in self.parts[i]..self.parts[i + 1] {
            let k = self.at[a];
            row[k] += w;
        }
    }

    // Adds the weights of a pick.
    fn add_pick(&self, row: &mut [f64; 24], pick: Pick)
        requires { pick_end pick ≤ length self.now.v.now }
        ensures { row.new ≡ pick_added self.now.at.now self.now.parts.now pick row.old }
    {
        match pick {
            Pick::One(i) => {
                self.add_part(row, i, 1.0);
            }
            Pick::Two(i, v, w) => {
                self.add_part(row, i, v);
                self.add_part(row, i + 1, w);
            }
        }
    }

    // Adds the response at a sample, group after group.
    fn add_response(&self, row: &mut [f64; 24], sample: Sample)
        ensures { row.new
            ≡ response_added self.now.at.now self.now.parts.now self.now.v.now
            self.now.groups.now (length self.now.groups.now - 1) sample.at row.old }
    {
        for group in self.groups.windows(2) {
            let a = group[0];
            let pick = neighbours(&self.v[a..group[1]], sample);
            self.add_pick(row, pick.shifted(a));
        }
    }

    // The responses on X or Y, a row for each of the 20 samples.
    pub(crate) fn respond(&self) -> [[f64; 24]; 20]
        ensures { (s : ℕ) → s < 20 → get_or result s []
            ≡ response_added self.now.at.now self.now.parts.now self.now.v.now
            self.now.groups.now (length self.now.groups.now - 1) (steps 19 s) no_responses }
    {
        let mut rows = [[0.0f64; 24]; 20];
        for (s, row) in rows.iter_mut().enumerate() {
            self.add_response(row, Sample::new(s, 19));
        }
        rows
    }

    // The responses on Z, a row for each of the 8 samples.
    // Apart from `respond`: with its rule as a closure two contracts grow, to spare this one loop.
    pub(crate) fn respond_z(&self) -> [[f64; 24]; 8]
        requires { (1 ≤ length self.now.v.now) × T (finite (get_or self.now.v.now 0 nan)) }
        ensures { (s : ℕ) → s < 8 → get_or result s []
            ≡ pick_added self.now.at.now self.now.parts.now
            (layer_pick self.now.v.now (steps 7 s)) no_responses }
    {
        let mut rows = [[0.0f64; 24]; 8];
        for (s, row) in rows.iter_mut().enumerate() {
            let pick = selected_layers(self.v, Sample::new(s, 7));
            self.add_pick(row, pick);
        }
        rows
    }
}
