// What a script sets, and the call for gains.
ghost use Rattle.std.specs.Prelude.{◌≤◌, length};

use crate::commands::{self, Command};
use crate::print;
use crate::text::Tokens;
use extent::Extent;
use field::STORE;
use layout::{Centre, Layout};
use selector::Selector;
use std::io;
use std::io::Write;

// Point gains, at most 32. An array with its count: memory is fixed, and a command is copied.
#[derive(Clone, Copy)]
pub struct Points {
    values: [f64; 32],
    count: usize,
    ghost within: { count ≤ 32 },
}

impl Points {
    pub fn new() -> Points {
        Points {
            values: [0.0; 32],
            count: 0,
        }
    }

    // One more; nothing where there are 32.
    pub fn push(&mut self, x: f64) -> Option<()> {
        *self.values.get_mut(self.count)? = x;
        self.count += 1;
        Some(())
    }

    pub fn as_slice(&self) -> &[f64] {
        &self.values[..self.count]
    }
}

// Why a line is not obeyed: it is no command, or what it writes cannot be written.
#[derive(Debug, Drop)]
pub enum Failure {
    Bad,
    Io(io::Error),
}

impl From<io::Error> for Failure {
    fn from(e: io::Error) -> Failure {
        Failure::Io(e)
    }
}

// What later calls bring, and the store that they are lent. `rowed`: a row was given to the last layer.
// A layout does not say it of a fifth layer and those after it, which it only counts. `size`: how much of
// the store a script lends, no length of it.
#[derive(Drop)]
pub struct Scene<'a> {
    store: &'a mut [f64],
    layout: Layout,
    rowed: bool,
    epoch: u64,
    extent: Extent,
    flags: [bool; 6],
    centre: Centre,
    points: Points,
    slots: usize,
    size: usize,
    selector: Selector,
}

impl<'a> Scene<'a> {
    pub fn new(store: &'a mut [f64]) -> Scene<'a> {
        Scene {
            store,
            layout: Layout::new(),
            rowed: false,
            epoch: 0,
            extent: Extent::default(),
            flags: [true; 6],
            centre: Centre {
                x: 0.5,
                y: 0.5,
                z: 0.0,
            },
            points: Points::new(),
            slots: 24,
            size: STORE,
            selector: Selector::new(),
        }
    }

    // How much of the store is lent.
    fn lent_size(&self) -> usize
        ensures { result ≤ length self.now.store.now }
    {
        self.size.min(self.store.len())
    }

    // The call for gains.
    fn gains<W: Write>(&mut self, out: &mut W) -> io::Result<()> {
        let mut space = [7.0f64; 32];
        let lent = self.slots.min(32);
        let size = self.lent_size();
        let reply = self.selector.project_outcome_with_epoch(
            &mut self.store[..size],
            self.layout,
            self.epoch,
            self.extent,
            self.flags,
            self.centre,
            self.points.as_slice(),
            &mut space[..lent],
        );
        self.selector = reply.selector;
        print::outcome(out, reply.outcome, self.layout, &space[..lent])
    }

    // The selector and the part of the store that is lent.
    fn show<W: Write>(&self, out: &mut W) -> io::Result<()> {
        let size = self.lent_size();
        print::shown(out, &self.selector, &self.store[..size])
    }

    fn set<W: Write>(&mut self, out: &mut W, command: Command) -> Result<(), Failure> {
        let layout = self.layout;
        match command {
            Command::Layout => {
                self.layout = Layout::new();
                self.rowed = false;
            }
            Command::Channel(c) => self.layout = layout.with_channel(c),
            Command::Layer(z) => {
                self.layout = layout.with_layer(z);
                self.rowed = false;
            }
            Command::Row(y) => {
                if layout.depth == 0 {
                    return Err(Failure::Bad);
                }
                self.layout = layout.with_row(y);
                self.rowed = true;
            }
            Command::Anchor(a) => {
                if !self.rowed {
                    return Err(Failure::Bad);
                }
                self.layout = layout.with_anchor(a);
            }
            Command::Epoch(n) => self.epoch = n,
            Command::Extent(e) => self.extent = e,
            Command::Zones(flags) => self.flags = flags,
            Command::Centre(c) => self.centre = c,
            Command::Points(points) => self.points = points,
            Command::Slots(n) => self.slots = n,
            Command::Store(n) => self.size = n,
            Command::Fill(x) => self.store.fill(x),
            Command::Fresh => self.selector = Selector::new(),
            Command::State(ring) => {
                self.selector.count = ring.count;
                self.selector.oldest = ring.oldest;
            }
            Command::Gains => self.gains(out)?,
            Command::Show => self.show(out)?,
        }
        Ok(())
    }

    // One line of a script, without its line feed.
    pub fn obey<W: Write>(&mut self, out: &mut W, line: &[u8]) -> Result<(), Failure> {
        let mut tokens = Tokens::new(line);
        match tokens.next() {
            None | Some([b'#', ..]) => Ok(()),
            Some(first) => {
                let command = commands::read(first, tokens).ok_or(Failure::Bad)?;
                self.set(out, command)
            }
        }
    }
}
