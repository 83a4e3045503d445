// A layout's topology as lists of numbers, for the code that walks it.
#![tactic(auto)]

ghost use Rattle.std.specs.Prelude.{◌≡◌, map};
ghost use Rattle.layout.specs.Topology.{layer_z, row_y, anchor_x, anchor_name};
ghost use Rattle.layout.specs.Steps.Starts.{layer_starts, anchor_index};

use channels::{active_names, index_of};
use layout::{Layout, anchor_starts, row_starts};

// z of each layer.
pub fn layer_zs(l: Layout) -> [f64; 4]
    ensures { result ≡ map layer_z l.layers }
{
    l.layers.map(|y| y.z)
}

// y of each row.
pub fn row_ys(l: Layout) -> [f64; 24]
    ensures { result ≡ map row_y l.rows }
{
    l.rows.map(|r| r.y)
}

// x of each anchor.
pub fn anchor_xs(l: Layout) -> [f64; 24]
    ensures { result ≡ map anchor_x l.anchors }
{
    l.anchors.map(|a| a.x)
}

// The name of each anchor.
pub fn anchor_names(l: Layout) -> [u64; 24]
    ensures { result ≡ map anchor_name l.anchors }
{
    l.anchors.map(|a| a.name)
}

// The place, among the active channels, of the channel that each anchor names; where none has that name, how
// many there are: plain numbers in the array that callers read, as `anchor_index` says.
pub fn anchor_indices(l: Layout) -> [usize; 24]
    ensures { result ≡ map (anchor_index l) l.anchors }
{
    let mut names = [0u64; 24];
    let n = active_names(l, &mut names);
    let names = &names[..n];
    l.anchors.map(|a| index_of(names, a.name).unwrap_or(n))
}

// Where each layer's anchors begin, and behind the last where they end.
pub fn layer_starts(l: Layout) -> [usize; 5]
    ensures { result ≡ layer_starts l }
{
    let anchors = anchor_starts(l);
    row_starts(l).map(|r| anchors[r])
}
