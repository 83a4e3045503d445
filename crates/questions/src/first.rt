// Questions 1 to 6 of document 01 about the layout in a key.
ghost use Rattle.std.specs.Prelude.{◌≡◌};
ghost use Rattle.layout.specs.Questions.{first_no, layout_questions};
ghost use Rattle.layout.specs.Refusals.{answer_by};
ghost use Rattle.keys.specs.InKey.{layout_in};

use crate::names::{Channels, FREE};
use crate::parts::{all_ordered, any_active, counted};
use keys::{ANCHOR_NAMES, DEPTH, FLAGS, LAYER_COUNTS, ROW_COUNTS, USED};
use layout::{Refusal, ask};

// The first question of 1 to 6 whose answer is no refuses the layout.
pub fn first_no(key: &[u64; 156]) -> Result<(), Refusal>
    ensures { result ≡ answer_by (first_no (layout_questions (layout_in key.now))) tt }
{
    let used = key[USED] as usize;
    ask((1 <= used) & (used <= 24), Refusal::Channels)?;
    let flags = &key[FLAGS..FLAGS + used];
    let mut entries = [FREE; 167];
    let channels = Channels::new(&key[..used], flags, &mut entries).ok_or(Refusal::Channels)?;
    let depth = key[DEPTH] as usize;
    ask((1 <= depth) & (depth <= 4), Refusal::Layers)?;
    ask(any_active(flags), Refusal::Active)?;
    let rows = counted(&key[LAYER_COUNTS..LAYER_COUNTS + depth], 6).ok_or(Refusal::Counts)?;
    let anchors = counted(&key[ROW_COUNTS..ROW_COUNTS + rows], 24).ok_or(Refusal::Counts)?;
    ask(all_ordered(key, depth, rows), Refusal::Order)?;
    ask(
        channels.are_active(&key[ANCHOR_NAMES..ANCHOR_NAMES + anchors]),
        Refusal::Anchors,
    )
}
