// The channels of a layout, and which of them are active.
ghost use Rattle.std.specs.Prelude.{◌≡◌, ◌≤◌, ◌++◌, min, drop};
ghost use Rattle.layout.specs.Channels.{active, active_names, active_count};

use layout::{Channel, Layout};

// Whether a channel takes part: it is enabled and not LFE.
fn is_active(c: Channel) -> bool
    ensures { result ≡ active c }
{
    c.enabled & !c.lfe
}

// How many of the 24 places a count covers. Apart from `layout::covered_layers`: both are `min` by a name.
pub fn covered(count: usize) -> usize
    ensures { result ≡ min count 24 }
{
    count.min(24)
}

// n: how many channels are active.
pub fn active_count(l: Layout) -> usize
    ensures value { result ≡ active_count l }
    ensures few { result ≤ 24 }
{
    l.channels[..covered(l.used)]
        .iter()
        .filter(|c| is_active(**c))
        .count()
}

// Writes the names of the active channels, in list order, to the front of out, and answers how many
// there are.
// Into a lent array, whose rest stays as it is; n counts what is written, which no zip would tell.
pub fn active_names(l: Layout, out: &mut [u64; 24]) -> usize
    ensures value { result ≡ active_count l }
    ensures few { result ≤ 24 }
    ensures out_after { out.new ≡ active_names l ++ drop (active_count l) out.old }
{
    let mut n = 0;
    for c in &l.channels[..covered(l.used)] {
        if is_active(*c) {
            out[n] = c.name;
            n += 1;
        }
    }
    n
}
