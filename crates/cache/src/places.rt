// The eight places: 156 numbers each, where a key is looked for and put. One array, as a caller lends it.
ghost use Rattle.std.specs.Prelude.{◌≡◌, cond, ◌+◌, ◌%◌, ◌<◌, ◌≤◌, eqb, ltb};
ghost use Rattle.std.proofs.Math.Seq.{slice};
ghost use Rattle.lists.specs.Lists.{all_same};
ghost use Rattle.cache.specs.Places.{key_at, with_key, slot_of, new_place, ring_after};

use crate::Ring;
use keys::EPOCH;

// Whether the key that begins at a number of the keys, as `key_at` has it, is this one. All bits that
// differ are gathered, in a loop without a branch: the equality of slices takes 428 instructions more.
fn is_key(keys: &[u64; 1248], from: usize, key: &[u64; 156]) -> bool
    requires { from + 156 ≤ 1248 }
    ensures { result ≡ all_same eqb (slice from (from + 156) keys.now) key.now }
{
    let mut differ = 0;
    for i in 0..156 {
        differ |= keys[from + i] ^ key[i];
    }
    differ == 0
}

// Whether the key in place p is this one. Most keys differ in the epoch, which is looked at first.
fn has_key(keys: &[u64; 1248], p: usize, key: &[u64; 156]) -> bool
    requires { p < 8 }
    ensures { result ≡ all_same eqb (key_at keys.now p) key.now }
{
    let from = 156 * p;
    keys[from + EPOCH] == key[EPOCH] && is_key(keys, from, key)
}

impl Ring {
    // The place that stands i behind the oldest.
    pub fn place(self, i: usize) -> usize
        ensures { result ≡ (self.oldest + i) % 8 }
    {
        (self.oldest % 8 + i % 8) % 8
    }
}

// Where the first equal key stands, from the oldest place on. A count above eight is taken as eight, and
// an oldest place above seven as its remainder.
pub fn find(keys: &[u64; 1248], r: Ring, key: &[u64; 156]) -> Option<usize>
    ensures { result ≡ slot_of keys.now r key.now }
{
    (0..r.count.min(8))
        .map(|i| r.place(i))
        .find(|p| has_key(keys, *p, key))
}

// Puts the key in place p; nothing changes where there is no such place.
pub fn put(keys: &mut [u64; 1248], p: usize, key: &[u64; 156])
    ensures { keys.new ≡ cond (ltb p 8) (with_key keys.old p key.now) keys.old }
{
    if p < 8 {
        let at = 156 * p;
        keys[at..at + 156].copy_from_slice(key);
    }
}

// The place of a new key.
pub fn next_place(r: Ring) -> usize
    ensures { result ≡ new_place r }
{
    r.place(r.count)
}

// The ring after a new key.
pub fn turned(r: Ring) -> Ring
    ensures { result ≡ ring_after r }
{
    if r.count < 8 {
        Ring {
            count: r.count + 1,
            ..r
        }
    } else {
        Ring {
            oldest: r.place(1),
            ..r
        }
    }
}
