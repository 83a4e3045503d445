// A layout made command by command.
ghost use Rattle.std.specs.Prelude.{◌≡◌};
ghost use Rattle.replay.specs.Room.{channel_of, empty_room, obeyed};

use crate::Command;
use layout::{Anchor, Channel, Layout};

// A channel of that name. Of its flags bit 0 says enabled, bit 1 LFE.
pub fn channel(name: u64, flags: u64) -> Channel
    ensures { result ≡ channel_of name flags }
{
    Channel {
        name,
        enabled: flags % 2 == 1,
        lfe: flags / 2 % 2 == 1,
    }
}

// A layout, and the name that its next channel or anchor takes.
#[derive(Clone, Copy)]
pub struct Room {
    pub layout: Layout,
    pub name: u64,
}

impl Room {
    pub fn new() -> Room
        ensures { result ≡ empty_room }
    {
        Room {
            layout: Layout::new(),
            name: 0,
        }
    }

    // 900 takes an empty layout; 901 keeps a name; 902 adds a channel of that name with flags, 903 a
    // layer at that z, 904 a row at that y, all others an anchor of that name at that x; coordinates as
    // bit patterns.
    pub fn obey(&mut self, command: Command)
        ensures { self.new ≡ obeyed self.old command.code command.value }
    {
        let name = self.name;
        let v = command.value;
        match command.code {
            900 => self.layout = Layout::new(),
            901 => self.name = v,
            902 => self.layout = self.layout.with_channel(channel(name, v)),
            903 => self.layout = self.layout.with_layer(doubles::of_bits(v)),
            904 => self.layout = self.layout.with_row(doubles::of_bits(v)),
            _ => {
                let x = doubles::of_bits(v);
                self.layout = self.layout.with_anchor(Anchor { name, x });
            }
        }
    }
}
