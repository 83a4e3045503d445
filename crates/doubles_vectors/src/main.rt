// Replays the Rust's answers. Each line of the input is a function's letter, a space and 16
// hexadecimal digits, a double's bit pattern or an integer; the program writes the same letter and
// the result. The letters: f floor, r sqrt, p pow2, q pow2_i32, g 2 to the power of floor_log2, s sine, c cosine,
// e approx_exp2, l approx_log2, i is_finite, b is_between 0 and 1, k clamp to 0 and 1.
#![tactic(auto)]

use record_io::Records;
use replay::Lettered;
use std::io;
use std::io::{BufReader, BufWriter, Write};

// The pattern of a function of a double: floor, sqrt, sine, cosine and the approximations.
fn of_double(letter: u8, x: f64) -> u64 {
    doubles::bits_of(match letter {
        b'f' => doubles::floor(x),
        b'r' => doubles::sqrt(x),
        b's' => approximations::sine(x),
        b'c' => approximations::cosine(x),
        b'e' => approximations::approx_exp2(x),
        b'l' => approximations::approx_log2(x),
        _ => doubles::clamp(x, 0.0, 1.0),
    })
}

// A letter is matched where its function is called, and goes nowhere else. Letters with no meaning of
// their own act as k.
fn answer(letter: u8, bits: u64) -> u64 {
    match letter {
        b'p' => doubles::bits_of(doubles::pow2(bits.cast_signed())),
        b'q' => doubles::bits_of(doubles::pow2_i32(((bits % 0x1_0000_0000) as u32).cast_signed())),
        b'g' => doubles::bits_of(doubles::pow2(doubles::floor_log2(doubles::of_bits(bits)))),
        b'i' => u64::from(doubles::is_finite(doubles::of_bits(bits))),
        b'b' => u64::from(doubles::is_between(0.0, 1.0, doubles::of_bits(bits))),
        _ => of_double(letter, doubles::of_bits(bits)),
    }
}

// Not by `replay::Bits`: some answers are whole numbers.
fn step<W: Write>(out: &mut W, line: Lettered) -> io::Result<()> {
    let bits = answer(line.letter, line.value);
    out.write_all(&[line.letter, b' '])?;
    writeln!(out, "{bits:016x}")
}

// As in the other programs: one main for all would take each one's state and its step.
fn main(rt: HostRuntime) -> io::Result<()> {
    let input = BufReader::new(rt.alloc(), rt.stdin())?;
    let mut out = BufWriter::new(rt.alloc(), io::writer(&rt))?;
    Records::new(input).try_for_each(|line| step(&mut out, Lettered::from(line?)))?;
    out.flush()
}
