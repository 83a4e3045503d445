// `derive_selected_layout`: the room in a key becomes the one that a region state selects.
ghost use Rattle.std.specs.Prelude.{◌≡◌};
ghost use Rattle.std.specs.List.{list_any};
ghost use Rattle.layout.specs.Questions.{first_no, layout_questions};
ghost use Rattle.layout.specs.Refusals.{answer_by};
ghost use Rattle.keys.specs.InKey.{layout_in};
ghost use Rattle.selection.specs.Steps.{is_set, selection_questions, selected_key};

use crate::flags::{bed_classed, kept_flags};
use kept_anchors::pack_kept;
use layout::{Refusal, ask};
use questions::first_no;
use region::{RegionSemanticState, is_default};

// Whether one of the flags is set.
fn any_set(flags: &[bool; 24]) -> bool
    ensures { result ≡ list_any is_set flags.now }
{
    flags.iter().any(|set| *set)
}

// Selects by a state in a key whose room is accepted, or refuses by question 9 or 10. The default state
// selects the room itself. Both questions are asked before the key is written.
fn select(key: &mut [u64; 156], state: RegionSemanticState) -> Result<(), Refusal>
    requires { first_no (layout_questions (layout_in key.old)) ≡ 0 }
    ensures value { result ≡ answer_by (first_no (selection_questions state key.old)) tt }
    ensures key { key.new ≡ selected_key state key.old }
{
    if is_default(state) {
        return Ok(());
    }
    let flags = kept_flags(key, state);
    ask(any_set(&flags), Refusal::Selection)?;
    ask(bed_classed(key, state), Refusal::Classes)?;
    pack_kept(key, &flags);
    Ok(())
}

// The room in a key becomes the one that a state selects. Where it is refused, the key stays as it was.
pub fn derive_selected_layout(
    key: &mut [u64; 156],
    state: RegionSemanticState,
) -> Result<(), Refusal>
    ensures value { result ≡ answer_by (first_no (selection_questions state key.old)) tt }
    ensures key { key.new ≡ selected_key state key.old }
{
    first_no(key)?;
    select(key, state)
}
