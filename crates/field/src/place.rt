// Filling a place of the store with the field of a layout.
ghost use Rattle.std.specs.Prelude.{◌≡◌, map, ◌+◌, ◌*◌, ◌≤◌, ◌<◌, length};
ghost use Rattle.layout.specs.Steps.Accepted.{Accepted};
ghost use Rattle.layout.specs.Channels.{active_count};
ghost use Rattle.layout.specs.Steps.Starts.{anchor_index};
ghost use Rattle.layout.specs.Room.{room_of};
ghost use Rattle.field.specs.Knots.{X, Y, Z};
ghost use Rattle.field.specs.Place.{filled, fillable, filled_where};
ghost use Rattle.field.specs.Steps.Filling.{ResponsesOn, filled_xy, filled_z, place_filled};

use crate::columns::{Columns, Responses};
use crate::response::Axis;
use crate::table::{table_xy, table_z};
use channels::active_count;
use keys::unpack;
use layout::{Layout, anchor_starts, row_starts, row_total};
use questions::first_no;
use walk::{anchor_indices, anchor_xs, layer_starts, layer_zs, row_ys};

// How many doubles a place has, and how many the store.
pub const PLACE: usize = 35664;

pub const STORE: usize = 8 * PLACE;

// A layout whose answers are all yes, the number n of its active channels, and the place among them
// of the channel that each anchor names.
#[derive(Drop)]
struct Walked {
    l: Layout,
    n: usize,
    at: [usize; 24],
    ghost sized: { (length l.layers ≡ 4) × (length l.rows ≡ 24) × (length l.anchors ≡ 24) },
    ghost accepted: { Accepted l },
    ghost counted: { n ≡ active_count l },
    ghost placed: { at ≡ map (anchor_index l) l.anchors },
}

impl Walked {
    fn new(l: Layout) -> Walked
        requires { Accepted l }
        ensures { result.l ≡ l }
    {
        Walked {
            l,
            n: active_count(l),
            at: anchor_indices(l),
        }
    }

    // The responses on X at the samples: each anchor is a part of its own. What the three axes share is
    // `Axis`; each has its own coordinates, parts and groups.
    fn responses_x(&self) -> Responses<20>
        ensures { (result.n ≡ self.now.n) × ResponsesOn X self.now.l result.rows }
    {
        let xs = anchor_xs(self.l);
        let starts = anchor_starts(self.l);
        let rows = row_total(self.l);
        let ones: [usize; 25] = std::array::from_fn(|i| i);
        let axis = Axis {
            at: &self.at,
            parts: &ones,
            v: &xs[..starts[rows]],
            groups: &starts[..=rows],
        };
        Responses {
            rows: axis.respond(),
            n: self.n,
        }
    }

    // The responses on Y.
    fn responses_y(&self) -> Responses<20>
        ensures { (result.n ≡ self.now.n) × ResponsesOn Y self.now.l result.rows }
    {
        let ys = row_ys(self.l);
        let starts = anchor_starts(self.l);
        let rows = row_starts(self.l);
        let depth = self.l.depth;
        let axis = Axis {
            at: &self.at,
            parts: &starts,
            v: &ys[..rows[depth]],
            groups: &rows[..=depth],
        };
        Responses {
            rows: axis.respond(),
            n: self.n,
        }
    }

    // The responses on Z.
    fn responses_z(&self) -> Responses<8>
        ensures { (result.n ≡ self.now.n) × ResponsesOn Z self.now.l result.rows }
    {
        let zs = layer_zs(self.l);
        let starts = layer_starts(self.l);
        let depth = self.l.depth;
        let axis = Axis {
            at: &self.at,
            parts: &starts,
            v: &zs[..depth],
            groups: &[0, depth],
        };
        Responses {
            rows: axis.respond_z(),
            n: self.n,
        }
    }

    // The tables of X and Y and their end responses.
    fn fill_xy(&self, place: &mut [f64])
        requires { 1484 * self.now.n ≤ length place.old }
        ensures { place.new ≡ filled_xy self.now.l place.old }
    {
        let n = self.n;
        let x = self.responses_x();
        let y = self.responses_y();
        table_xy(place, &Columns::new(&x), &Columns::new(&y));
        x.write_ends(&mut place[1480 * n..1482 * n]);
        y.write_ends(&mut place[1482 * n..1484 * n]);
    }

    // The table of Z and its end responses. Apart from `fill_xy`: with one layer Z is not written.
    fn fill_z(&self, place: &mut [f64])
        requires { 1486 * self.now.n ≤ length place.old }
        ensures { place.new ≡ filled_z self.now.l place.old }
    {
        let n = self.n;
        let z = self.responses_z();
        table_z(place, &Columns::new(&z));
        z.write_ends(&mut place[1484 * n..1486 * n]);
    }

    // All rows of a place. With one layer Z is not written.
    fn fill_rows(&self, place: &mut [f64])
        requires { 1486 * self.now.n ≤ length place.old }
        ensures { place.new ≡ place_filled (room_of self.now.l) place.old }
    {
        self.fill_xy(place);
        if self.l.depth < 2 {
            return;
        }
        self.fill_z(place);
    }
}

fn fill(store: &mut [f64], p: usize, l: Layout)
    requires { (285312 ≤ length store.old) × (p < 8) × Accepted l }
    ensures { store.new ≡ filled (room_of l) p store.old }
{
    Walked::new(l).fill_rows(&mut store[PLACE * p..]);
}

// Fills place p of the store with the field of the room in a key. False, and nothing is written,
// where the layout in the key is refused, the store is too short or there is no such place. A bool: which
// question refuses a layout is for `first_no` to tell.
pub fn fill_place(store: &mut [f64], p: usize, key: &[u64; 156]) -> bool
    ensures value { result ≡ fillable key.now p store.old }
    ensures store_after { store.new ≡ filled_where key.now p store.old }
{
    if first_no(key).is_err() | (store.len() < STORE) | (7 < p) {
        return false;
    }
    fill(store, p, unpack(key));
    true
}
