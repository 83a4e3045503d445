// Which anchors a region state keeps, and question 10, read from a key.
ghost use Rattle.std.specs.Prelude.{◌≡◌, ◌||◌, not, map, length};
ghost use Rattle.std.specs.Float.Ieee.{eq};
ghost use Rattle.doubles.specs.Arithmetic.{zero64};
ghost use Rattle.std.specs.List.{list_all, list_any};
ghost use Rattle.layout.specs.Steps.Accepted.{Accepted};
ghost use Rattle.keys.specs.InKey.{layout_in, room_in};
ghost use Rattle.classes.specs.Classes.{outside_five, is_flc};
ghost use Rattle.rules.specs.Steps.{stays_by};
ghost use Rattle.selection.specs.Selection.{question10};
ghost use Rattle.selection.specs.Steps.{kept_flags, has_class};

use crate::starts::layer_starts;
use classes::{is_flc, is_outside_five};
use doubles::of_bits;
use keys::{ANCHOR_NAMES, DEPTH, USED, ZS};
use region::RegionSemanticState;
use rules::{Bed, Rule, is_no_constraints, rule_of, stays_by};

// Whether one of the names is one that five-x has not.
fn any_outside_five(names: &[u64]) -> bool
    ensures { result ≡ list_any outside_five names.now }
{
    names.iter().any(|n| is_outside_five(*n))
}

// Whether one of the names is FLc.
fn is_22_2(names: &[u64]) -> bool
    ensures { result ≡ list_any is_flc names.now }
{
    names.iter().any(|n| is_flc(*n))
}

// Writes the flags of one layer, whose anchors have these names.
fn flag_layer(kept: &mut [bool], names: &[u64], rule: Rule)
    requires { length kept.old ≡ length names.now }
    ensures { kept.new ≡ map (stays_by rule) names.now }
{
    // Not by a zip: in one with `iter_mut` an invariant has no name for what is written.
    for (i, keep) in kept.iter_mut().enumerate() {
        *keep = stays_by(rule, names[i]);
    }
}

// Which anchors stay. By the layer's number, which `rule_of` takes.
pub(crate) fn kept_flags(key: &[u64; 156], state: RegionSemanticState) -> [bool; 24]
    requires { Accepted (layout_in key.now) }
    ensures { result ≡ kept_flags state (room_in key.now) }
{
    let names = &key[..key[USED] as usize];
    let depth = key[DEPTH] as usize;
    let has_flc = is_22_2(names);
    let five = !any_outside_five(names);
    let starts = layer_starts(key);
    let mut kept = [false; 24];
    for i in 0..depth {
        let rule = rule_of(has_flc, five, state, depth, i, of_bits(key[ZS + i]));
        let names = &key[ANCHOR_NAMES + starts[i]..ANCHOR_NAMES + starts[i + 1]];
        flag_layer(&mut kept[starts[i]..starts[i + 1]], names, rule);
    }
    kept
}

// Whether the speakers of all names have a class.
fn all_classed(names: &[u64], bed: Bed) -> bool
    ensures { result ≡ list_all (has_class bed.horizontal bed.five) names.now }
{
    names.iter().all(|n| bed.has_class(*n))
}

// Whether a layer at z, whose anchors have these names, is not at z = 0 or they have a class.
fn layer_classed(names: &[u64], z: f64, bed: Bed) -> bool
    ensures { result ≡ (not (eq z zero64) || list_all (has_class bed.horizontal bed.five) names.now) }
{
    z != 0.0 || all_classed(names, bed)
}

// Question 10: each anchor of the layers at z = 0 has a class.
pub(crate) fn bed_classed(key: &[u64; 156], state: RegionSemanticState) -> bool
    requires { Accepted (layout_in key.now) }
    ensures { result ≡ question10 state (room_in key.now) }
{
    let horizontal = state.horizontal;
    if is_no_constraints(horizontal) {
        return true;
    }
    let depth = key[DEPTH] as usize;
    let five = !any_outside_five(&key[..key[USED] as usize]);
    let bed = Bed { horizontal, five };
    let starts = layer_starts(key);
    // kept_flags walks so too; one walk for both needs a closure that writes, and a word to stop: no plainer.
    // Of `all` in place of the loop the search alone did not prove that its closure may be called.
    for i in 0..depth {
        let names = &key[ANCHOR_NAMES + starts[i]..ANCHOR_NAMES + starts[i + 1]];
        if !layer_classed(names, of_bits(key[ZS + i]), bed) {
            return false;
        }
    }
    true
}
