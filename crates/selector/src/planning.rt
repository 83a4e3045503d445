// The questions before question 11, asked of a key, and what they leave: the selected room's key, and
// the reading of the extent.
ghost use Rattle.std.specs.Prelude.{◌≡◌};
ghost use Rattle.layout.specs.Refusals.{answer_by};
ghost use Rattle.extent.specs.Extent.{reading_of};
ghost use Rattle.selector.specs.Call.{state_by};
ghost use Rattle.selector.specs.Steps.{asked_no, plan_of, planned_key};

use extent::{Extent, Reading, read_extent};
use layout::Refusal;
use region::{RegionSemanticState, from_decoded_zones};
use selection::derive_selected_layout;

// Questions 7, 18 and 19, and 8: what the extent and the flags are read as.
fn asked(e: Extent, flags: [bool; 6]) -> Result<(Reading, RegionSemanticState), Refusal>
    ensures { result ≡ answer_by (asked_no e flags) (reading_of e, state_by flags) }
{
    let reading = read_extent(e)?;
    let state = from_decoded_zones(flags)?;
    Ok((reading, state))
}

// Questions 1 to 6, 7, 18 and 19, and 8 to 10, told in this order. The key becomes that of the room
// that the flags select; where a question has a no it stays.
pub(crate) fn plan(e: Extent, flags: [bool; 6], key: &mut [u64; 156]) -> Result<Reading, Refusal>
    ensures value { result ≡ plan_of key.old e flags }
    ensures key { key.new ≡ planned_key key.old e flags }
{
    match asked(e, flags) {
        Ok((reading, state)) => {
            derive_selected_layout(key, state)?;
            Ok(reading)
        }
        Err(no) => {
            questions::first_no(key)?;
            Err(no)
        }
    }
}
