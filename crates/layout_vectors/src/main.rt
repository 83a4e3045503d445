// Replays answers about layouts. Each line of the input is a three-digit number, a space and 16
// hexadecimal digits, the value.
//
// 000 to 153 set a field of the layout at hand: 0 the number of channels, 1 the number of layers;
// from 2 name and flags (bit 0 enabled, bit 1 LFE) of each of 24 channels, from 50 z and count of
// each of 4 layers, from 58 y and count of each of 24 rows, from 106 name and x of each of 24
// anchors; coordinates as bit patterns. 900 takes an empty layout; 901 to 904 add an enabled channel
// of that name, a layer at that z, a row at that y, and an anchor at that x with the name that 905
// gave. 910 puts the layout aside. Three commands write a line: 920 the first question whose answer
// is no and how many active channels, rows and anchors there are, 921 whether the layout has the key
// of the one put aside, 922 the place of that name among the active channels, or their number where
// it is none of them.
#![tactic(auto)]

use layout::{Anchor, Channel, Layout};
use record_io::Records;
use replay::Command;
use std::io;
use std::io::{BufReader, BufWriter, Write};

// Not `replay::Room`: the numbers of these scripts mean other commands, and the stored input keeps them.
#[derive(Clone, Copy)]
pub struct State {
    pub now: Layout,
    pub aside: Layout,
    pub name: u64,
}

// Sets field i of a layout, by the number that the stored input gives it: at even i the first one of an
// entry, at odd i what stands beside it. Four arms: the fields have different types.
fn set(l: &mut Layout, i: usize, v: u64) {
    let is_first = i % 2 == 0;
    let x = doubles::of_bits(v);
    match i {
        0 => l.used = v as usize,
        1 => l.depth = v as usize,
        2..=49 => {
            let c = &mut l.channels[(i - 2) / 2];
            if is_first {
                c.name = v;
            } else {
                *c = replay::channel(c.name, v);
            }
        }
        50..=57 => {
            let y = &mut l.layers[(i - 50) / 2];
            if is_first {
                y.z = x;
            } else {
                y.count = v as usize;
            }
        }
        58..=105 => {
            let r = &mut l.rows[(i - 58) / 2];
            if is_first {
                r.y = x;
            } else {
                r.count = v as usize;
            }
        }
        106..=153 => {
            let a = &mut l.anchors[(i - 106) / 2];
            if is_first {
                a.name = v;
            } else {
                a.x = x;
            }
        }
        _ => {}
    }
}

fn ask<W: Write>(out: &mut W, l: Layout) -> io::Result<()> {
    let no = questions::first_no(&replay::key_of(l))
        .err()
        .map_or(0, |no| no.number());
    let active = channels::active_count(l);
    let rows = layout::row_total(l);
    let anchors = layout::anchor_total(l);
    writeln!(out, "{no} {active} {rows} {anchors}")
}

fn compare<W: Write>(out: &mut W, a: Layout, b: Layout) -> io::Result<()> {
    let word = if replay::key_of(a) == replay::key_of(b) {
        "same"
    } else {
        "other"
    };
    writeln!(out, "{word}")
}

fn place<W: Write>(out: &mut W, l: Layout, name: u64) -> io::Result<()> {
    let mut names = [0u64; 24];
    let n = channels::active_names(l, &mut names);
    let at = channels::index_of(&names[..n], name).unwrap_or(n);
    writeln!(out, "{at}")
}

// One command. Numbers with no meaning of their own act up to 904 as 904, up to 919 as 910, above as 922.
fn step<W: Write>(out: &mut W, s: &mut State, command: Command) -> io::Result<()> {
    let Command { code, value: v } = command;
    let x = doubles::of_bits(v);
    match code {
        0..=153 => set(&mut s.now, code as usize, v),
        900 => s.now = Layout::new(),
        901 => {
            s.now = s.now.with_channel(Channel {
                name: v,
                enabled: true,
                lfe: false,
            });
        }
        902 => s.now = s.now.with_layer(x),
        903 => s.now = s.now.with_row(x),
        154..=904 => s.now = s.now.with_anchor(Anchor { name: s.name, x }),
        905 => s.name = v,
        906..=919 => s.aside = s.now,
        920 => return ask(out, s.now),
        921 => return compare(out, s.now, s.aside),
        _ => return place(out, s.now, v),
    }
    Ok(())
}

// As in the other programs: one main for all would take each one's state and its step.
fn main(rt: HostRuntime) -> io::Result<()> {
    let input = BufReader::new(rt.alloc(), rt.stdin())?;
    let mut out = BufWriter::new(rt.alloc(), io::writer(&rt))?;
    let mut s = State {
        now: Layout::new(),
        aside: Layout::new(),
        name: 0,
    };
    Records::new(input).try_for_each(|line| step(&mut out, &mut s, Command::from(line?)))?;
    out.flush()
}
