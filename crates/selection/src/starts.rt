// Where the anchors of the layers begin in a key. A sum stops at 24, so that every key is read within
// its bounds; in the key of an accepted room no sum is above 24.
ghost use Rattle.std.specs.Prelude.{◌≡◌, ℕ, ◌+◌, ◌<◌, ◌≤◌, slice_index};
ghost use Rattle.layout.specs.Steps.Starts.{layer_starts};
ghost use Rattle.keys.specs.InKey.{layout_in};

use keys::{LAYER_COUNTS, ROW_COUNTS};
use layout::{next_start, reach};

// Where each layer's anchors begin, and behind the last where they end. From the key itself: walk's function
// of this name takes a layout, which would have to be unpacked first.
pub(crate) fn layer_starts(key: &[u64; 156]) -> [usize; 5]
    ensures value { result ≡ layer_starts (layout_in key.now) }
    ensures rise { (i : ℕ) → i < 4 → slice_index result i ≤ slice_index result (i + 1) }
    ensures most { (i : ℕ) → i ≤ 4 → slice_index result i ≤ 24 }
{
    let mut starts = [0; 5];
    let mut row = 0;
    // By number: two parts of the key are read, and two starts are written and read by it.
    for i in 0..4 {
        let next = next_start(row, key[LAYER_COUNTS + i] as usize);
        starts[i + 1] = reach(&key[ROW_COUNTS + row..ROW_COUNTS + next], starts[i]);
        row = next;
    }
    starts
}
