// Tests of the parts of a key.
ghost use Rattle.std.specs.Prelude.{◌≡◌, ◌==◌, ◌+◌, ◌≤◌, length, slice_range};
ghost use Rattle.lists.specs.Lists.{total};
ghost use Rattle.std.specs.List.{list_any};
ghost use Rattle.questions.specs.Steps.KeyCounts.{counted};
ghost use Rattle.questions.specs.Steps.KeyOrder.{runs_ordered, all_ordered};

use crate::numbers::is_ordered;
use keys::{LAYER_COUNTS, ROW_COUNTS, USED, XS, YS, ZS};

// Whether one of the channels with these flags is active.
pub(crate) fn any_active(flags: &[u64]) -> bool
    ensures { result ≡ list_any (λ f. f == 1) flags.now }
{
    flags.iter().any(|f| *f == 1)
}

// The sum of counts that are from 1 to `most` each and at most 24 together. Each is tested before it is
// added, so that the sum stays small.
pub(crate) fn counted(counts: &[u64], most: u64) -> Option<usize>
    requires { (length counts.now ≤ 24) × (most ≤ 24) }
    ensures { result ≡ counted most counts.now }
{
    let mut total = 0;
    for c in counts {
        if (*c < 1) | (most < *c) {
            return None;
        }
        total += *c as usize;
    }
    (total <= 24).then_some(total)
}

// Whether each of the runs of doubles with these lengths, one behind the other, is ordered. Runs of unequal
// lengths are no chunks, so each is cut off what is left.
fn runs_ordered(mut runs: &[u64], lengths: &[u64]) -> bool
    requires { total lengths.now ≤ length runs.now }
    ensures { result ≡ runs_ordered runs.now lengths.now }
{
    let mut ok = true;
    for n in lengths {
        let (run, rest) = runs.split_at(*n as usize);
        ok = ok & is_ordered(run);
        runs = rest;
    }
    ok
}

// Whether z over layers, y within a layer and x within a row are ordered.
pub(crate) fn all_ordered(key: &[u64; 156], depth: usize, rows: usize) -> bool
    requires counts { (depth ≤ 4) × (rows ≤ 24) }
    requires totals { (total (slice_range key.now 48 (48 + depth)) ≤ 24)
        × (total (slice_range key.now 52 (52 + rows)) ≤ 24) }
    ensures { result ≡ all_ordered key.now depth rows }
{
    is_ordered(&key[ZS..ZS + depth])
        & runs_ordered(&key[YS..XS], &key[LAYER_COUNTS..LAYER_COUNTS + depth])
        & runs_ordered(&key[XS..USED], &key[ROW_COUNTS..ROW_COUNTS + rows])
}
