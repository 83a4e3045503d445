// A centre that moves from turn to turn.
ghost use Rattle.std.specs.Prelude.{◌≡◌};
ghost use Rattle.replay.specs.Centre.{moved};

use layout::Centre;

// The centre, a little to the right every other turn.
pub fn moved(c: Centre, turn: u64) -> Centre
    ensures { result ≡ moved c turn }
{
    if turn % 2 == 0 {
        c
    } else {
        Centre {
            x: c.x + 0.0078125,
            ..c
        }
    }
}
