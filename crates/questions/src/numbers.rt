// Tests of lists of numbers, and of doubles by their patterns.
ghost use Rattle.std.specs.Prelude.{◌≡◌, map};
ghost use Rattle.lists.specs.Lists.{all_distinct};
ghost use Rattle.layout.specs.Questions.{ordered};
ghost use Rattle.keys.specs.InKey.{double};

use doubles::of_bits;

// Whether all of v are different.
pub(crate) fn all_distinct(v: &[u64]) -> bool
    ensures { result ≡ all_distinct v.now }
{
    v.iter().enumerate().all(|(i, x)| !v[..i].contains(x))
}

// Whether the doubles of v are finite, from -1 to 1 and strictly ascending. Of those that ascend, the
// first is the least and the last the greatest. By `is_sorted_by` each pattern would be made a double twice.
pub(crate) fn is_ordered(v: &[u64]) -> bool
    ensures { result ≡ ordered (map double v.now) }
{
    let Some((first, rest)) = v.split_first() else {
        return true;
    };
    let mut last = of_bits(*first);
    let mut good = -1.0 <= last;
    for w in rest {
        let next = of_bits(*w);
        good = good & (last < next);
        last = next;
    }
    good & (last <= 1.0)
}
