// The key of a layout and an epoch. 0 names of the channels, 24 their flags (1 enabled, 2 LFE), 48 rows
// of each layer, 52 anchors of each row, 76 names of the anchors, 100 z, 104 y and 128 x as bit
// patterns with -0 as 0, 152 channels, 153 layers, 154 epoch; entries past a count are 0.
ghost use Rattle.std.specs.Prelude.{◌≡◌, map, ◌+◌, ◌≤◌, length};
ghost use Rattle.keys.specs.Steps.{packed_numbers, two_parts};

use crate::entry::Entry;
use crate::parts::{ANCHOR_NAMES, DEPTH, EPOCH, FLAGS, LAYER_COUNTS, ROW_COUNTS, USED, XS, YS, ZS};
use channels::covered;
use layout::{Layout, covered_layers, next_start};

// Writes the entries to two parts of a key, their first numbers from a and their second from b on.
fn write<E: Entry>(v: &[E], a: usize, b: usize, key: &mut [u64; 156])
    requires { (a + length v.now ≤ b) × (b + length v.now ≤ 156) }
    ensures { key.new ≡ two_parts a (map E.first v.now) b (map E.second v.now) (length v.now) key.old }
{
    // Two offsets into one array: two slices to write to would have to be split off it at each call.
    for (i, e) in v.iter().enumerate() {
        let (first, second) = e.numbers();
        key[a + i] = first;
        key[b + i] = second;
    }
}

// Packs the layout and the epoch. Into a lent array: to hand one back copies it, which takes 146
// instructions more a call.
pub fn pack(l: Layout, epoch: u64, out: &mut [u64; 156])
    ensures { out.new ≡ packed_numbers l epoch }
{
    let layers = &l.layers[..covered_layers(l.depth)];
    // Not row_total and anchor_total, which build all starts first; `reach` takes counts that are no fields.
    let row_count = layers.iter().fold(0, |n, y| next_start(n, y.count));
    let rows = &l.rows[..row_count];
    let anchor_count = rows.iter().fold(0, |n, r| next_start(n, r.count));
    let anchors = &l.anchors[..anchor_count];
    *out = [0; 156];
    write(&l.channels[..covered(l.used)], 0, FLAGS, out);
    write(layers, LAYER_COUNTS, ZS, out);
    write(rows, ROW_COUNTS, YS, out);
    write(anchors, ANCHOR_NAMES, XS, out);
    out[USED] = l.used as u64;
    out[DEPTH] = l.depth as u64;
    out[EPOCH] = epoch;
}
