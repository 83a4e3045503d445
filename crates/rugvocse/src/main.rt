// Scene scripts in, gains out.
#![tactic(auto)]

ghost use Rattle.std.specs.Prelude.{◌≤◌};

mod commands;
mod numbers;
mod print;
mod scene;
mod text;

use field::STORE;
use record_io::read_full;
use scene::{Failure, Scene};
use std::io;
use std::io::{BufWriter, Read, Write};

// The most bytes that a line has.
const LONGEST: usize = 4000;

// How many bytes of a line are held: one more tells that it is too long.
const HELD: usize = LONGEST + 1;

// How many bytes are read at a time.
const PIECE: usize = 65536;

// The most pieces that are read.
const MOST: u64 = 1_000_000;

// The line that is read: its bytes so far, and which it is. Of one that is too long the first bytes are
// held. An array with its length: memory is fixed, so that no line ends the program for want of it.
#[derive(Drop)]
struct Line {
    bytes: [u8; HELD],
    length: usize,
    number: u64,
    ghost held: { length ≤ 4001 },
}

impl Line {
    // The first line, of which nothing is read yet.
    fn first() -> Line {
        Line {
            bytes: [0; HELD],
            length: 0,
            number: 1,
        }
    }

    // More bytes of the line.
    fn add(&mut self, more: &[u8]) {
        let end = self.length;
        let n = more.len().min(HELD - end);
        self.bytes[end..end + n].copy_from_slice(&more[..n]);
        self.length = end + n;
    }

    // The line has ended: it is obeyed, and the next one begins.
    fn obey<W: Write>(&mut self, out: &mut W, scene: &mut Scene<'_>) -> io::Result<()> {
        let obeyed = if self.length <= LONGEST {
            scene.obey(out, &self.bytes[..self.length])
        } else {
            Err(Failure::Bad)
        };
        let number = self.number;
        match obeyed {
            Ok(()) => {}
            Err(Failure::Bad) => writeln!(out, "line {number}: bad")?,
            Err(Failure::Io(e)) => return Err(e),
        }
        self.length = 0;
        self.number = number.wrapping_add(1);
        Ok(())
    }
}

// A piece of the script: each line is obeyed where it ends, and what is left begins the next one.
fn obey_all<W: Write>(
    out: &mut W,
    scene: &mut Scene<'_>,
    line: &mut Line,
    piece: &[u8],
) -> io::Result<()> {
    for part in piece.split_inclusive(|b| *b == b'\n') {
        match part {
            [rest @ .., b'\n'] => {
                line.add(rest);
                line.obey(out, scene)?;
            }
            _ => line.add(part),
        }
    }
    Ok(())
}

// Plays a script, read piece by piece into a lent array.
fn run<R: Read, W: Write>(
    input: &mut R,
    out: &mut W,
    store: &mut [f64],
    piece: &mut [u8],
) -> io::Result<()> {
    let mut scene = Scene::new(store);
    let mut line = Line::first();
    for _ in 0..MOST {
        let got = read_full(input, piece)?;
        if got == 0 {
            if line.length != 0 {
                line.obey(out, &mut scene)?;
            }
            break;
        }
        obey_all(out, &mut scene, &mut line, &piece[..got])?;
    }
    out.flush()
}

fn main(rt: HostRuntime) -> io::Result<()> {
    let mut input = rt.stdin();
    let mut out = BufWriter::new(rt.alloc(), io::writer(&rt))?;
    let mut store = [0.0f64; STORE];
    let mut piece = [0u8; PIECE];
    run(&mut input, &mut out, &mut store, &mut piece)
}
