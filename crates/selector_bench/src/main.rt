// Calls for gains, to be timed. Each line of the input is a three-digit number, a space and 16
// hexadecimal digits, the value.
//
// 900 takes an empty layout; 901 keeps a name; 902 adds a channel of that name with flags (bit 0
// enabled, bit 1 LFE), 903 a layer at that z, 904 a row at that y, 905 an anchor of that name at that
// x; coordinates as bit patterns. 950 sets the six zone flags, the first one lowest. 951 makes that
// many calls of one epoch, so that all but the first find their field, and 952 that many of epochs
// that go down by one, so that each builds its field; both on a fresh selector. The last number of
// keys held is written.
#![tactic(auto)]

use extent::Extent;
use field::STORE;
use layout::Centre;
use record_io::Records;
use replay::{Command, Room, moved};
use selector::Ring;
use std::io;
use std::io::{BufReader, BufWriter, Write};

const EXTENT: Extent = Extent {
    x: 0.45,
    y: 0.45,
    z: 0.45,
};

const CENTRE: Centre = Centre {
    x: 0.2,
    y: 0.5,
    z: 0.4,
};

// What the lines so far have set, and the store that a selector is lent.
#[derive(Drop)]
pub struct Setting<'a> {
    pub store: &'a mut [f64],
    pub room: Room,
    pub flags: [bool; 6],
}

impl Setting<'_> {
    // So many calls, each of the epoch of its turn; how many keys are held then. There are as many
    // point gains as active channels.
    fn turns<F: Fn(u64) -> u64>(&mut self, count: u64, epoch_of: F) -> usize
        requires { F.IsAlwaysCallable epoch_of }
    {
        let l = self.room.layout;
        let flags = self.flags;
        let points = [0.3f64; 24];
        let n = channels::active_count(l);
        let mut words = [0u64; 1248];
        let mut gains = [0.0f64; 24];
        let mut ring = Ring {
            count: 0,
            oldest: 0,
        };
        for turn in (1..=count).rev() {
            let reply = selector::project_outcome_with_epoch(
                &mut words,
                ring,
                self.store,
                l,
                epoch_of(turn),
                EXTENT,
                flags,
                moved(CENTRE, turn),
                &points[..n],
                &mut gains,
            );
            ring = reply.ring;
        }
        ring.count
    }

    // One command. Numbers with no meaning of their own act up to 909 as 905, above as 951. One closure that
    // asks which: with one for each the calls are compiled twice, and each takes 250 instructions more.
    fn step<W: Write>(&mut self, out: &mut W, command: Command) -> io::Result<()> {
        let Command { code, value } = command;
        match code {
            0..=909 => self.room.obey(command),
            950 => self.flags = std::array::from_fn(|i| value & (1 << i) != 0),
            _ => {
                let is_built = code == 952;
                let held = self.turns(value, |turn| if is_built { turn } else { 7 });
                writeln!(out, "{held}")?;
            }
        }
        Ok(())
    }
}

// As in the other programs: one main for all would take each one's state and its step.
fn main(rt: HostRuntime) -> io::Result<()> {
    let input = BufReader::new(rt.alloc(), rt.stdin())?;
    let mut out = BufWriter::new(rt.alloc(), io::writer(&rt))?;
    let mut store = [0.0f64; STORE];
    let mut setting = Setting {
        store: &mut store,
        room: Room::new(),
        flags: [true; 6],
    };
    Records::new(input).try_for_each(|line| setting.step(&mut out, Command::from(line?)))?;
    out.flush()
}
