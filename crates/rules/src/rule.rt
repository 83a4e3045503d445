// The rule by which a layer keeps its anchors.
ghost use Rattle.std.specs.Prelude.{◌≡◌, ◌&&◌, cond, eqb};
ghost use Rattle.std.specs.Float.Ieee.{lt};
ghost use Rattle.doubles.specs.Arithmetic.{zero64};
ghost use Rattle.rules.specs.Steps.{rule_of, stays_by};

use crate::Bed;
use region::{RegionSemanticState, is_include};

// How a layer keeps its anchors: an upper one goes or stays whole, others keep all or go by class.
#[derive(Clone, Copy)]
pub enum Rule {
    Upper { include: bool },
    Lower { whole: bool, bed: Bed },
}

// Whether layer i of depth, at height z, is upper. Which test it is follows from the room, no caller chooses.
fn is_upper(is_22_2: bool, depth: usize, i: usize, z: f64) -> bool
    ensures { result ≡ cond is_22_2 (lt zero64 z) (eqb depth 2 && eqb i 1) }
{
    if is_22_2 {
        0.0 < z
    } else {
        (depth == 2) & (i == 1)
    }
}

// Whether a layer at height z keeps all.
fn keeps_all(is_22_2: bool, z: f64) -> bool
    ensures { result ≡ (is_22_2 && lt z zero64) }
{
    is_22_2 & (z < 0.0)
}

// The rule of layer i, at height z. Six plain values: they come from the room, the state and the layer,
// and one caller has them, so a struct of them would be made and taken apart once.
pub fn rule_of(
    is_22_2: bool,
    five: bool,
    state: RegionSemanticState,
    depth: usize,
    i: usize,
    z: f64,
) -> Rule
    ensures { result ≡ rule_of is_22_2 five state depth i z }
{
    if is_upper(is_22_2, depth, i, z) {
        Rule::Upper {
            include: is_include(state.top),
        }
    } else {
        Rule::Lower {
            whole: keeps_all(is_22_2, z),
            bed: Bed {
                horizontal: state.horizontal,
                five,
            },
        }
    }
}

// Whether the anchor of a name stays by a rule.
pub fn stays_by(rule: Rule, name: u64) -> bool
    ensures { result ≡ stays_by rule name }
{
    match rule {
        Rule::Upper { include } => include,
        Rule::Lower { whole, bed } => whole | bed.keeps(name),
    }
}
