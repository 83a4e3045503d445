// Where the parts of a layout begin: the rows of layer i are those from row_starts[i] up to
// row_starts[i + 1], and the anchors of row r those from anchor_starts[r] up to anchor_starts[r + 1].
ghost use Rattle.std.specs.Prelude.{◌≡◌, ◌+◌, ◌≤◌, min, length};
ghost use Rattle.lists.specs.Lists.{total};
ghost use Rattle.layout.specs.Topology.{used_rows, used_anchors};
ghost use Rattle.layout.specs.Steps.Starts.{row_starts, anchor_starts, starts_from};

use crate::Layout;

// s + c, or 24 where that is more.
pub fn next_start(s: usize, c: usize) -> usize
    ensures { result ≡ min (s + c) 24 }
{
    s.saturating_add(c).min(24)
}

// How far these counts lead from s, none past 24: s and all of them, or 24 where that is more. Over a slice:
// over any iterator it would require that it ends, and public functions require nothing.
pub fn reach(counts: &[u64], s: usize) -> usize
    ensures { result ≡ min (s + total counts.now) 24 }
{
    counts
        .iter()
        .fold(s.min(24), |n, c| next_start(n, *c as usize))
}

// Where each part begins, by the counts of the parts, and behind the last where they end.
fn starts_from<const N: usize>(counts: &[usize]) -> [usize; N]
    requires { N ≡ length counts.now + 1 }
    ensures { result ≡ starts_from 0 counts.now }
{
    // By place: each is written behind the count that it follows from.
    let mut starts = [0usize; N];
    let mut s = 0usize;
    for (i, c) in counts.iter().enumerate() {
        s = next_start(s, *c);
        starts[i + 1] = s;
    }
    starts
}

// Where each layer's rows begin, and behind the last where they end.
pub fn row_starts(l: Layout) -> [usize; 5]
    ensures { result ≡ row_starts l }
{
    starts_from(&l.layers.map(|y| y.count))
}

// Where each row's anchors begin, and behind the last where they end.
pub fn anchor_starts(l: Layout) -> [usize; 25]
    ensures { result ≡ anchor_starts l }
{
    starts_from(&l.rows.map(|r| r.count))
}

// How many of the four places of layers a count covers.
pub fn covered_layers(depth: usize) -> usize
    ensures { result ≡ min depth 4 }
{
    depth.min(4)
}

// How many rows the layout has.
pub fn row_total(l: Layout) -> usize
    ensures { result ≡ length (used_rows l) }
{
    row_starts(l)[covered_layers(l.depth)]
}

// How many anchors the layout has.
pub fn anchor_total(l: Layout) -> usize
    ensures { result ≡ length (used_anchors l) }
{
    anchor_starts(l)[row_total(l)]
}
