// A double by its pattern.
ghost use Rattle.std.specs.Prelude.{Some};
ghost use Rattle.replay.specs.Bits.{pattern_text};

use std::fmt;

// A double that is written as the 16 hexadecimal digits of its pattern.
#[derive(Clone, Copy)]
pub struct Bits(pub f64);

impl fmt::Display for Bits {
    ghost output = { λ b. Some (pattern_text b.0) };

    fn fmt<W: fmt::Write>(&self, f: &mut fmt::Formatter<W>) -> fmt::Result {
        let bits = doubles::bits_of(self.0);
        write!(f, "{bits:016x}")
    }
}
