// The layout in a key: what any 156 numbers hold.
ghost use Rattle.std.specs.Prelude.{◌≡◌, ◌+◌, ◌≤◌};
ghost use Rattle.std.proofs.Math.Seq.{slice};
ghost use Rattle.lists.specs.Lists.{zip_with};
ghost use Rattle.keys.specs.InKey.{layout_in};

use crate::entry::Entry;
use crate::parts::{ANCHOR_NAMES, DEPTH, FLAGS, LAYER_COUNTS, ROW_COUNTS, USED, XS, YS, ZS};
use layout::Layout;

// The entries in two parts of a key: their first numbers stand from a and their second from b on.
fn entries_in<E: Entry, const N: usize>(key: &[u64; 156], a: usize, b: usize) -> [E; N]
    requires { (a + N ≤ 156) × (b + N ≤ 156) }
    ensures { result ≡ zip_with E.made (slice a (a + N) key.now) (slice b (b + N) key.now) }
{
    // By offsets: two slices would take a line each, and one index would read them all the same.
    std::array::from_fn(|i| E::of(key[a + i], key[b + i]))
}

// The layout in a key; a pattern of a NaN stands for NaN.
pub fn unpack(key: &[u64; 156]) -> Layout
    ensures { result ≡ layout_in key.now }
{
    Layout {
        channels: entries_in(key, 0, FLAGS),
        used: key[USED] as usize,
        layers: entries_in(key, LAYER_COUNTS, ZS),
        depth: key[DEPTH] as usize,
        rows: entries_in(key, ROW_COUNTS, YS),
        anchors: entries_in(key, ANCHOR_NAMES, XS),
    }
}
