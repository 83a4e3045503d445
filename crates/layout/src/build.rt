// A layout made entry by entry.
ghost use Rattle.std.specs.Prelude.{◌≡◌};
ghost use Rattle.layout.specs.Build.{empty_layout, one_more, put, has_layer, has_row, with_channel, with_layer, with_row, with_anchor};

use crate::starts::{anchor_total, row_total};
use crate::{Anchor, Channel, Layer, Layout, Row};

// One more, and the largest count stays.
fn one_more(n: usize) -> usize
    ensures { result ≡ one_more n }
{
    n.saturating_add(1)
}

// Writes x to a place, where there is such a place. By its index: of `get_mut` at any T the proof did not
// close.
fn put<T: Copy>(places: &mut [T], at: usize, x: T)
    ensures { places.new ≡ put places.old at x }
{
    if at < places.len() {
        places[at] = x;
    }
}

// Whether there is a last layer that has a place.
fn has_layer(l: Layout) -> bool
    ensures { result ≡ has_layer l }
{
    (1 <= l.depth) & (l.depth <= 4)
}

// Whether that layer has a row.
fn has_row(l: Layout) -> bool
    ensures { result ≡ has_row l }
{
    has_layer(l) && 1 <= l.layers[l.depth - 1].count
}

impl Layout {
    // No channels and no layers.
    pub fn new() -> Layout
        ensures { result ≡ empty_layout }
    {
        Layout {
            channels: [Channel::default(); 24],
            used: 0,
            layers: [Layer::default(); 4],
            depth: 0,
            rows: [Row::default(); 24],
            anchors: [Anchor::default(); 24],
        }
    }

    // One channel more. Without a place for it only the count rises.
    pub fn with_channel(self, c: Channel) -> Layout
        ensures { result ≡ with_channel self c }
    {
        let mut l = self;
        put(&mut l.channels, self.used, c);
        l.used = one_more(self.used);
        l
    }

    // One layer more, with no rows. Without a place for it only the count rises.
    pub fn with_layer(self, z: f64) -> Layout
        ensures { result ≡ with_layer self z }
    {
        let mut l = self;
        put(&mut l.layers, self.depth, Layer { z, count: 0 });
        l.depth = one_more(self.depth);
        l
    }

    // One row more in the last layer, with no anchors. Without a place for it only the layer's count
    // rises; without a layer nothing changes.
    pub fn with_row(self, y: f64) -> Layout
        ensures { result ≡ with_row self y }
    {
        let mut l = self;
        if !has_layer(l) {
            return l;
        }
        put(&mut l.rows, row_total(self), Row { y, count: 0 });
        let layer = &mut l.layers[l.depth - 1];
        layer.count = one_more(layer.count);
        l
    }

    // One anchor more in the last row. Without a place for it only the row's count rises; where the
    // last layer has no row nothing changes.
    pub fn with_anchor(self, a: Anchor) -> Layout
        ensures { result ≡ with_anchor self a }
    {
        let mut l = self;
        if !has_row(l) {
            return l;
        }
        put(&mut l.anchors, anchor_total(self), a);
        let row = &mut l.rows[row_total(self) - 1];
        row.count = one_more(row.count);
        l
    }
}
