// Replays the Rust's readings of extents, its kernel and its shaping. Each line of the input is a letter, a
// space and 16 hexadecimal digits.
//
// x, y and z set a component of the extent to the double of that pattern. r reads the extent: it writes the
// mean and the radius's bits, or the number of the question that refuses it. h goes through the 128 odd
// numbers k from that number on: of each it writes the means of three equal components, which are the
// double below k / 65536, that number itself, and the double above it.
//
// Four commands write the bits of a double: d the radius of the scalar of that pattern, e the shaping exponent
// of that radius, s the component x shaped with that exponent, and k the kernel at x about the centre y with
// the radius z, on Z where the number is 1.
#![tactic(auto)]

use extent::{Extent, Reading};
use record_io::Records;
use replay::{Bits, Lettered};
use std::io;
use std::io::{BufReader, BufWriter, Write};

fn read<W: Write>(out: &mut W, e: Extent) -> io::Result<()> {
    match extent::read_extent(e) {
        Err(no) => writeln!(out, "{no}"),
        Ok(Reading { mean, radius }) => writeln!(out, "{mean} {}", Bits(radius)),
    }
}

// The mean of three components of a pattern, and what stands behind it.
fn put_mean<W: Write>(out: &mut W, bits: u64, behind: u8) -> io::Result<()> {
    let v = doubles::of_bits(bits);
    if let Ok(Reading { mean, .. }) = extent::read_extent(Extent { x: v, y: v, z: v }) {
        write!(out, "{mean}")?;
    }
    out.write_all(&[behind])
}

fn put_half<W: Write>(out: &mut W, k: u64) -> io::Result<()> {
    let bits = doubles::bits_of(std::num::nearest_u64_to_f64(k) / 65536.0);
    put_mean(out, bits.wrapping_sub(1), b' ')?;
    put_mean(out, bits, b' ')?;
    put_mean(out, bits.wrapping_add(1), b'\n')
}

fn put_halves<W: Write>(out: &mut W, from: u64) -> io::Result<()> {
    for i in 0..128 {
        put_half(out, from % 65536 + 2 * i)?;
    }
    Ok(())
}

// One command; a letter below x that has no other meaning tells the kernel.
fn step<W: Write>(out: &mut W, e: &mut Extent, line: Lettered) -> io::Result<()> {
    let v = doubles::of_bits(line.value);
    let told = match line.letter {
        b'r' => return read(out, *e),
        b'h' => return put_halves(out, line.value),
        b'd' => extent::extent_radius(v),
        b'e' => extent::shaping_exponent(v),
        b's' => extent::shaped(e.x, v),
        b'x' => {
            e.x = v;
            return Ok(());
        }
        b'y' => {
            e.y = v;
            return Ok(());
        }
        letter if b'x' < letter => {
            e.z = v;
            return Ok(());
        }
        _ => extent::compact_quartic_kernel(e.x, e.y, e.z, line.value == 1),
    };
    writeln!(out, "{}", Bits(told))
}

// As in the other programs: one main for all would take each one's state and its step.
fn main(rt: HostRuntime) -> io::Result<()> {
    let input = BufReader::new(rt.alloc(), rt.stdin())?;
    let mut out = BufWriter::new(rt.alloc(), io::writer(&rt))?;
    let mut e = Extent::default();
    Records::new(input).try_for_each(|line| step(&mut out, &mut e, Lettered::from(line?)))?;
    out.flush()
}
