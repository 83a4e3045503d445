// The key of a room that is accepted, and what the call reads from it.
ghost use Rattle.std.specs.Prelude.{◌≡◌, ltb, length};
ghost use Rattle.layout.specs.Questions.{first_no, layout_questions};
ghost use Rattle.layout.specs.Room.{active_in};
ghost use Rattle.keys.specs.InKey.{layout_in, room_in};

use keys::DEPTH;

// The key of a room that questions 1 to 6 accept, and how many of its channels are active.
#[derive(Clone, Copy)]
pub(crate) struct RoomKey<'a> {
    pub(crate) key: &'a [u64; 156],
    pub(crate) n: usize,
    ghost long: { length key.now ≡ 156 },
    ghost counted: { n ≡ active_in (room_in key.now) },
    ghost accepted: { first_no (layout_questions (layout_in key.now)) ≡ 0 },
}

impl RoomKey<'_> {
    // Whether the field of the room has Z.
    pub(crate) fn has_z(self) -> bool
        ensures { result ≡ ltb 1 (length (room_in self.entry.key.now).layers) }
    {
        1 < self.key[DEPTH]
    }
}
