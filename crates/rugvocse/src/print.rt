// What a call and the selector are written as.
use keys::EPOCH;
use layout::Layout;
use replay::Bits;
use selector::{Gains, Outcome, Ring, Selector};
use std::io::Write;
use std::{fmt, io};

// A gain to six places, rounded half up; a dash where it is not from 0 to 2.
#[derive(Clone, Copy)]
struct Decimal(f64);

impl fmt::Display for Decimal {
    fn fmt<W: fmt::Write>(&self, f: &mut fmt::Formatter<W>) -> fmt::Result {
        let gain = self.0;
        if !(0.0 <= gain && gain <= 2.0) {
            return write!(f, "-");
        }
        let millionths = std::num::saturating_f64_to_u64(gain * 1000000.0 + 0.5);
        let whole = millionths / 1000000;
        let rest = millionths % 1000000;
        write!(f, "{whole}.{rest:06}")
    }
}

// The bytes of a packed name. Not by Display, which writes UTF-8: a name may be any bytes.
fn name<W: Write>(out: &mut W, n: u64) -> io::Result<()> {
    let bytes = n.to_le_bytes();
    let unused = n.leading_zeros() / 8;
    out.write_all(&bytes[..8 - unused as usize])
}

fn gain<W: Write>(out: &mut W, n: u64, g: f64) -> io::Result<()> {
    name(out, n)?;
    writeln!(out, " {} {}", Bits(g), Decimal(g))
}

// Slots from `from` on that do not hold 7, which stands in all of them before a call: a call is lent plain
// doubles, and what it left is told by what stood there.
fn slots<W: Write>(out: &mut W, v: &[f64], from: usize) -> io::Result<()> {
    for (i, x) in v.iter().enumerate().skip(from) {
        if *x != 7.0 {
            writeln!(out, "slot {i} {}", Bits(*x))?;
        }
    }
    Ok(())
}

// What a call answered, over the slots that it was lent.
pub fn outcome<W: Write>(out: &mut W, o: Outcome, l: Layout, lent: &[f64]) -> io::Result<()> {
    match o {
        Err(no) => {
            writeln!(out, "refused {no}")?;
            slots(out, lent, 0)
        }
        Ok(Gains { n, word }) => {
            writeln!(out, "{word} {n}")?;
            let mut names = [0u64; 24];
            let active = channels::active_names(l, &mut names);
            for (n, g) in names[..active].iter().zip(lent) {
                gain(out, *n, *g)?;
            }
            slots(out, lent, n)
        }
    }
}

// The selector and the part of the store that is lent.
pub fn shown<W: Write>(out: &mut W, s: &Selector, store: &[f64]) -> io::Result<()> {
    let ring = Ring {
        count: s.count,
        oldest: s.oldest,
    };
    write!(out, "keys {} {}", ring.count, ring.oldest)?;
    if ring.count <= 8 && ring.oldest <= 7 {
        for i in 0..ring.count {
            let epoch = s.keys[ring.place(i) * 156 + EPOCH];
            write!(out, " {epoch}")?;
        }
    }
    let size = store.len();
    let hash = replay::hash_doubles(store);
    writeln!(out, "\nstore {size} {hash}")
}
