// Replays the Rust's fields. Each line of the input is a three-digit number, a space and 16
// hexadecimal digits, the value.
//
// 900 takes an empty layout; 901 keeps a name; 902 adds a channel of that name with flags (bit 0
// enabled, bit 1 LFE), 903 a layer at that z, 904 a row at that y, 905 an anchor of that name at that
// x; coordinates as bit patterns. 910 puts that double everywhere into the store. 920 fills a place
// and writes 1, or 0 where it was refused; 921 writes a hash over a part of the store (the high half
// of the value is where it begins, the low half how many doubles), 922 the bits of a number of the
// store. 930 to 932 set the components of the extent, 933 to 935 those of the centre, 936 adds a
// point gain and 937 drops them all; 938 and 939 set a number of the store: its index and then its
// value. 940 projects over a place: it writes the mean, the radius's bits and the gains' bits. 942 sets a
// radius by itself, and 943 projects over a place with it: it writes the gains' bits.
//
// Two commands are for timing: 923 fills place 0 that many times, and 941 projects over it that many
// times, the centre moving a little each time.
#![tactic(auto)]

use extent::{Extent, Reading};
use field::STORE;
use layout::Centre;
use record_io::Records;
use replay::{Bits, Command, Room, moved};
use std::io;
use std::io::{BufReader, BufWriter, Write};

// What a projection brings, all 24 point gains, in fixed memory; the next one is put at `count`. A number
// of the store is set at `index`.
#[derive(Clone, Copy)]
pub struct Object {
    pub extent: Extent,
    pub centre: Centre,
    pub points: [f64; 24],
    pub count: usize,
    pub index: usize,
    pub radius: f64,
}

impl Object {
    fn new() -> Object {
        Object {
            extent: Extent::default(),
            centre: Centre::default(),
            points: [0.0; 24],
            count: 0,
            index: 0,
            radius: 0.0,
        }
    }

    // One point gain more, where there is room for it. Not by the `Points` of `rugvocse`: a projection
    // gets all 24 of these, whatever their count, and one too many is passed over.
    fn add_point(&mut self, x: f64) {
        if let Some(point) = self.points.get_mut(self.count) {
            *point = x;
            self.count += 1;
        }
    }
}

// What the lines so far have set, and the store.
#[derive(Drop)]
pub struct Setting<'a> {
    pub store: &'a mut [f64],
    pub room: Room,
    pub object: Object,
}

impl Setting<'_> {
    // A hash over `count` doubles from `from` on; 0 where the store has no such part.
    fn hash(&self, from: usize, count: usize) -> u64 {
        self.store
            .get(from..)
            .and_then(|rest| rest.get(..count))
            .map_or(0, |part| replay::hash_doubles(part))
    }

    // A number of the store; 0 where it has no such one.
    fn number(&self, i: usize) -> f64 {
        self.store.get(i).copied().unwrap_or(0.0)
    }

    fn set_number(&mut self, x: f64) {
        if let Some(number) = self.store.get_mut(self.object.index) {
            *number = x;
        }
    }

    // Fills place p with the field of the layout's room.
    fn fill(&mut self, p: usize) -> bool {
        field::fill_place(self.store, p, &replay::key_of(self.room.layout))
    }

    fn fill_often(&mut self, count: u64) {
        for _ in 0..count {
            self.fill(0);
        }
    }

    // The gains of n channels over place p; false where it is refused.
    fn project(&self, gains: &mut [f64; 24], n: usize, p: usize, r: Reading, c: Centre) -> bool {
        let is_deep = 1 < self.room.layout.depth;
        let points = &self.object.points;
        gains::project(gains, self.store, p, n, is_deep, r, c, points)
    }

    fn tell_gains<W: Write>(&self, out: &mut W, p: usize, reading: Reading) -> io::Result<()> {
        let n = channels::active_count(self.room.layout);
        let mut gains = [7.0f64; 24];
        if !self.project(&mut gains, n, p, reading, self.object.centre) {
            return out.write_all(b"refused\n");
        }
        for gain in &gains[..n] {
            let bits = Bits(*gain);
            writeln!(out, "{bits}")?;
        }
        Ok(())
    }

    fn tell_projection<W: Write>(&self, out: &mut W, p: usize) -> io::Result<()> {
        match extent::read_extent(self.object.extent) {
            Err(no) => writeln!(out, "{no}"),
            Ok(reading) => {
                let mean = reading.mean;
                writeln!(out, "{mean} {}", Bits(reading.radius))?;
                self.tell_gains(out, p, reading)
            }
        }
    }

    fn project_often(&self, count: u64) {
        let Ok(reading) = extent::read_extent(self.object.extent) else {
            return;
        };
        let n = channels::active_count(self.room.layout);
        let mut gains = [0.0f64; 24];
        for turn in 0..count {
            let centre = moved(self.object.centre, turn);
            self.project(&mut gains, n, 0, reading, centre);
        }
    }

    // One command. Numbers with no meaning of their own act up to 909 as 905, up to 929 as 922, above as 941.
    fn step<W: Write>(&mut self, out: &mut W, command: Command) -> io::Result<()> {
        let Command { code, value: v } = command;
        let x = doubles::of_bits(v);
        let o = &mut self.object;
        match code {
            0..=909 => self.room.obey(command),
            910 => self.store.fill(x),
            920 => {
                let filled = u64::from(self.fill(v as usize));
                return writeln!(out, "{filled}");
            }
            921 => {
                let from = v / 0x1_0000_0000;
                let count = v % 0x1_0000_0000;
                let h = self.hash(from as usize, count as usize);
                return writeln!(out, "{h}");
            }
            923 => self.fill_often(v),
            911..=929 => {
                let bits = Bits(self.number(v as usize));
                return writeln!(out, "{bits}");
            }
            930 => o.extent.x = x,
            931 => o.extent.y = x,
            932 => o.extent.z = x,
            933 => o.centre.x = x,
            934 => o.centre.y = x,
            935 => o.centre.z = x,
            936 => o.add_point(x),
            937 => o.count = 0,
            938 => o.index = v as usize,
            939 => self.set_number(x),
            940 => return self.tell_projection(out, v as usize),
            942 => o.radius = x,
            943 => {
                let radius = o.radius;
                return self.tell_gains(out, v as usize, Reading { mean: 1, radius });
            }
            _ => self.project_often(v),
        }
        Ok(())
    }
}

// As in the other programs: one main for all would take each one's state and its step.
fn main(rt: HostRuntime) -> io::Result<()> {
    let input = BufReader::new(rt.alloc(), rt.stdin())?;
    let mut out = BufWriter::new(rt.alloc(), io::writer(&rt))?;
    let mut store = [0.0f64; STORE];
    let mut setting = Setting {
        store: &mut store,
        room: Room::new(),
        object: Object::new(),
    };
    Records::new(input).try_for_each(|line| setting.step(&mut out, Command::from(line?)))?;
    out.flush()
}
