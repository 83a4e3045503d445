// How many channels of the room in a key are active.
ghost use Rattle.std.specs.Prelude.{◌≡◌};
ghost use Rattle.layout.specs.Room.{active_in};
ghost use Rattle.keys.specs.InKey.{room_in};

use crate::parts::{FLAGS, USED};
use channels::covered;

// n of the room in a key: how many of the channels' flags are 1, enabled and not LFE.
pub fn active_count(key: &[u64; 156]) -> usize
    ensures { result ≡ active_in (room_in key.now) }
{
    let used = covered(key[USED] as usize);
    key[FLAGS..FLAGS + used].iter().filter(|f| **f == 1).count()
}
