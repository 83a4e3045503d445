// A key with just the anchors that are kept, told by one flag for each anchor, in order; empty rows
// and layers go. It is packed in place: what stays moves to the front of its part, zeros behind it.
// The parts of a key are told in crate keys.
ghost use Rattle.std.specs.Prelude.{◌≡◌, ◌+◌, ◌≤◌, min, false, map, length, replicate};
ghost use Rattle.std.proofs.Math.Seq.{slice};
ghost use Rattle.lists.specs.Lists.{total};
ghost use Rattle.keys.specs.Keys.{filled_to};
ghost use Rattle.kept_anchors.specs.Steps.Kept.{count_set, is_positive, counts_of, picked_parts, kept_key};

use keys::{ANCHOR_NAMES, DEPTH, LAYER_COUNTS, ROW_COUNTS, XS, YS, ZS};
use layout::{covered_layers, next_start, reach};

// Each length becomes how many flags are set in its part, and `any` tells which parts have one;
// answers where the last part ends. In one pass: one for each takes 88 instructions more a call.
fn count_parts(lengths: &mut [u64], flags: &[bool; 24], any: &mut [bool; 24]) -> usize
    requires room { length lengths.old ≤ 24 }
    requires none { any.old ≡ replicate 24 false }
    ensures counts { lengths.new ≡ counts_of lengths.old flags.now }
    ensures any { any.new ≡ map is_positive (filled_to 24 lengths.new) }
    ensures end { result ≡ min (total lengths.old) 24 }
{
    let mut at = 0;
    for (i, n) in lengths.iter_mut().enumerate() {
        let end = next_start(at, *n as usize);
        let count = flags[at..end].iter().filter(|f| **f).count();
        *n = count as u64;
        any[i] = count != 0;
        at = end;
    }
    at
}

// Moves the entries that are kept to the front of their two parts, which begin at a and at b, and
// clears those behind them; answers how many are kept.
fn sift(key: &mut [u64; 156], a: usize, b: usize, kept: &[bool]) -> usize
    requires { (a + length kept.now ≤ b) × (b + length kept.now ≤ 156) }
    ensures key_after { key.new ≡ picked_parts a b (length kept.now) kept.now
        (slice a (a + length kept.now) key.old) (slice b (b + length kept.now) key.old) key.old }
    ensures number { result ≡ count_set kept.now }
{
    let n = kept.len();
    let mut k = 0;
    // Two offsets into one array: two slices to write to would have to be split off it at each call.
    for (i, keep) in kept.iter().enumerate() {
        if *keep {
            key[a + k] = key[a + i];
            key[b + k] = key[b + i];
            k += 1;
        }
    }
    key[a + k..a + n].fill(0);
    key[b + k..b + n].fill(0);
    k
}

// Packs a key so that it has just the anchors whose flags are set. Its counts are followed as far as
// its places reach.
pub fn pack_kept(key: &mut [u64; 156], kept: &[bool; 24])
    ensures { key.new ≡ kept_key kept.now key.old }
{
    let depth = covered_layers(key[DEPTH] as usize);
    let rows = reach(&key[LAYER_COUNTS..LAYER_COUNTS + depth], 0);
    let mut rows_kept = [false; 24];
    let anchors = count_parts(
        &mut key[ROW_COUNTS..ROW_COUNTS + rows],
        kept,
        &mut rows_kept,
    );
    let mut layers_kept = [false; 24];
    count_parts(
        &mut key[LAYER_COUNTS..LAYER_COUNTS + depth],
        &rows_kept,
        &mut layers_kept,
    );
    let left = sift(key, LAYER_COUNTS, ZS, &layers_kept[..depth]);
    sift(key, ROW_COUNTS, YS, &rows_kept[..rows]);
    sift(key, ANCHOR_NAMES, XS, &kept[..anchors]);
    key[DEPTH] = left as u64;
}
