// The names of a layout's channels, with an index of their places by their remainder modulo 167, so
// that the place of a name is found without a search. The names of the usual layouts have different
// remainders; where two have one, the search is made.
ghost use Rattle.std.specs.Prelude.{◌≡◌, ◌==◌, true, false, ◌%◌, ◌≤◌, length, position, MatchOption};
ghost use Rattle.questions.specs.Steps.KeyNames.{good_names, is_active_name, all_active_names, IndexOf};

use crate::numbers::all_distinct;
use channels::{index_of, is_name};

// What stands in the entry of no name. Not None: `place` then has to show that the place in an entry is
// one of the names, which its test answers for FREE as well.
pub(crate) const FREE: u8 = 24;

// The entry of a name.
fn entry(name: u64) -> usize
    ensures { result ≡ name % 167 }
{
    (name % 167) as usize
}

// The channels of a layout: their names, whether each is active, and an index of the names.
#[derive(Clone, Copy)]
pub(crate) struct Channels<'a> {
    names: &'a [u64],
    flags: &'a [u64],
    entries: &'a [u8; 167],
    ghost paired: { length flags.now ≡ length names.now },
    ghost indexed: { IndexOf names.now entries.now },
}

impl<'a> Channels<'a> {
    // The channels, where all have names and no two are equal. The place of each is written to its
    // entry, the last one first, so that the first of those with one entry stays. Names with entries of
    // their own differ; where two have one, they are compared.
    pub(crate) fn new(
        names: &'a [u64],
        flags: &'a [u64],
        entries: &'a mut [u8; 167],
    ) -> Option<Channels<'a>>
        requires few { length names.now ≤ 24 }
        requires paired { length flags.now ≡ length names.now }
        ensures { MatchOption result (good_names names.now ≡ false)
            (λ c. (good_names names.now ≡ true) × (c.names.now ≡ names.now) × (c.flags.now ≡ flags.now)) }
    {
        let mut clear = true;
        for (i, w) in names.iter().enumerate().rev() {
            if !is_name(*w) {
                return None;
            }
            let e = entry(*w);
            clear &= entries[e] == FREE;
            entries[e] = i as u8;
        }
        (clear || all_distinct(names)).then_some(Channels {
            names,
            flags,
            entries,
        })
    }

    // The place of the first channel with this name.
    fn place(self, w: u64) -> Option<usize>
        ensures { result ≡ position (λ x. x == w) self.entry.names.now }
    {
        let p = usize::from(self.entries[entry(w)]);
        if p < self.names.len() && self.names[p] == w {
            return Some(p);
        }
        index_of(self.names, w)
    }

    // Whether the first channel with this name is active.
    fn is_active(self, w: u64) -> bool
        ensures { result ≡ is_active_name self.entry.names.now self.entry.flags.now w }
    {
        self.place(w).is_some_and(|p| self.flags[p] == 1)
    }

    // Whether each of these names is that of an active channel.
    pub(crate) fn are_active(self, anchors: &[u64]) -> bool
        ensures { result ≡ all_active_names self.entry.names.now self.entry.flags.now anchors.now }
    {
        anchors.iter().all(|w| self.is_active(*w))
    }
}
