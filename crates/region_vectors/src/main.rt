// Replays the Rust's regions. Each line of the input is a three-digit number, a space and 16
// hexadecimal digits, the value.
//
// 900 takes an empty layout; 901 keeps a name; 902 adds a channel of that name with flags (bit 0
// enabled, bit 1 LFE), 903 a layer at that z, 904 a row at that y, 905 an anchor of that name at that
// x; coordinates as bit patterns. 910 reads six flags, the first one in bit 5: it writes the number of
// the horizontal state, 1 where the top state is Include, 1 where the state is the default one, and
// the flags of the state; or the refusal alone. 911 writes what each horizontal state does with the
// speaker of that name, without five-x and with it: 0 dropped, 1 kept, 2 no class. 912 selects by a
// state, the number of the horizontal state doubled and 1 more where top is Include: it writes the
// refusal, and where that is 0 how many layers, rows and anchors are selected and a hash over them.
#![tactic(auto)]

use classes::BedMatch;
use keys::{ANCHOR_NAMES, DEPTH, LAYER_COUNTS, ROW_COUNTS, USED, XS, YS, ZS};
use layout::Layout;
use record_io::Records;
use region::{RegionHorizontalState, RegionSemanticState};
use replay::{Command, Room, mixed};
use std::io;
use std::io::{BufReader, BufWriter, Write};

// The horizontal states, each at its number.
const HORIZONTAL: [RegionHorizontalState; 6] = [
    RegionHorizontalState::NoConstraints,
    RegionHorizontalState::BackExcluded,
    RegionHorizontalState::SideExcluded,
    RegionHorizontalState::CentreAndBack,
    RegionHorizontalState::ScreenOnly,
    RegionHorizontalState::SurroundOnly,
];

fn tell_state<W: Write>(out: &mut W, s: RegionSemanticState) -> io::Result<()> {
    let horizontal = s.horizontal as u64;
    let top = u64::from(region::is_include(s.top));
    let default = u64::from(region::is_default(s));
    write!(out, "{horizontal} {top} {default} ")?;
    for flag in region::to_decoded_zones(s) {
        let digit = u64::from(flag);
        write!(out, "{digit}")?;
    }
    out.write_all(b"\n")
}

fn tell_flags<W: Write>(out: &mut W, v: u64) -> io::Result<()> {
    let flags = std::array::from_fn(|i| v & (32 >> i) != 0);
    match region::from_decoded_zones(flags) {
        Ok(s) => tell_state(out, s),
        Err(no) => writeln!(out, "{no}"),
    }
}

// By a match: the stored answers have 0 for dropped and 1 for kept, another order than the cases'.
fn bed_number(b: BedMatch) -> u64 {
    match b {
        BedMatch::Dropped => 0,
        BedMatch::Kept => 1,
        BedMatch::Unclassed => 2,
    }
}

fn tell_name<W: Write>(out: &mut W, name: u64) -> io::Result<()> {
    for state in HORIZONTAL {
        let without = bed_number(classes::matches_bed_state(state, name, false));
        let with = bed_number(classes::matches_bed_state(state, name, true));
        write!(out, "{without}{with}")?;
    }
    out.write_all(b"\n")
}

// The hash over pairs: what stands in a part of a key, and beside it what stands in another.
fn hash_pairs(a: &[u64], b: &[u64]) -> u64 {
    a.iter().zip(b).fold(0, |h, (x, y)| mixed(mixed(h, *x), *y))
}

fn tell_room<W: Write>(out: &mut W, key: &[u64; 156]) -> io::Result<()> {
    let layer_counts = &key[LAYER_COUNTS..ROW_COUNTS];
    let row_counts = &key[ROW_COUNTS..ANCHOR_NAMES];
    let names = &key[ANCHOR_NAMES..ZS];
    let depth = key[DEPTH];
    let rows = layout::reach(layer_counts, 0);
    let anchors = layout::reach(row_counts, 0);
    let layers_hash = hash_pairs(&key[ZS..YS], layer_counts);
    let rows_hash = hash_pairs(&key[YS..XS], row_counts);
    let anchors_hash = hash_pairs(names, &key[XS..USED]);
    writeln!(
        out,
        "{depth} {rows} {anchors} {layers_hash} {rows_hash} {anchors_hash}"
    )
}

fn state_of(v: u64) -> RegionSemanticState {
    RegionSemanticState {
        horizontal: HORIZONTAL[(v / 2).min(5) as usize],
        top: (v % 2 == 1).into(),
    }
}

// The numbers of a layout. Its heights, the y of its rows and the x of its anchors are as they are:
// a key has -0 as 0.
fn key_of(l: Layout) -> [u64; 156] {
    let mut key = replay::key_of(l);
    // By index: after a write through a part's slice the proof did not find the key's length.
    for i in 0..4 {
        key[ZS + i] = doubles::bits_of(l.layers[i].z);
    }
    for i in 0..24 {
        key[YS + i] = doubles::bits_of(l.rows[i].y);
        key[XS + i] = doubles::bits_of(l.anchors[i].x);
    }
    key
}

fn tell_selected<W: Write>(out: &mut W, l: Layout, v: u64) -> io::Result<()> {
    let mut key = key_of(l);
    match selection::derive_selected_layout(&mut key, state_of(v)) {
        Ok(()) => {
            out.write_all(b"0 ")?;
            tell_room(out, &key)
        }
        Err(no) => writeln!(out, "{no}"),
    }
}

// One command. Numbers with no meaning of their own act up to 909 as 905, above as 912.
fn step<W: Write>(out: &mut W, room: &mut Room, command: Command) -> io::Result<()> {
    let Command { code, value } = command;
    match code {
        0..=909 => {
            room.obey(command);
            Ok(())
        }
        910 => tell_flags(out, value),
        911 => tell_name(out, value),
        _ => tell_selected(out, room.layout, value),
    }
}

// As in the other programs: one main for all would take each one's state and its step.
fn main(rt: HostRuntime) -> io::Result<()> {
    let input = BufReader::new(rt.alloc(), rt.stdin())?;
    let mut out = BufWriter::new(rt.alloc(), io::writer(&rt))?;
    let mut room = Room::new();
    Records::new(input).try_for_each(|line| step(&mut out, &mut room, Command::from(line?)))?;
    out.flush()
}
