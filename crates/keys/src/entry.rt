// Each entry of a layout stands in a key by two numbers.
ghost use Rattle.std.specs.Prelude.{◌≡◌, ℕ, ◌+◌, ◌*◌};
ghost use Rattle.lists.specs.Lists.{bit};
ghost use Rattle.layout.specs.Channels.{channel_name};
ghost use Rattle.layout.specs.Topology.{layer_count, row_count, anchor_name};
ghost use Rattle.keys.specs.Keys.{pattern, flag_number};
ghost use Rattle.keys.specs.Steps.{z_pattern, y_pattern, x_pattern};
ghost use Rattle.keys.specs.InKey.{channel_in, layer_in, row_in, anchor_in};

use doubles::of_bits;
use layout::{Anchor, Channel, Layer, Row};

// A trait of its own: entries and tuples are other crates' types, so that From cannot be written here.
pub(crate) trait Entry: Copy {
    ghost first: { Self → ℕ };

    ghost second: { Self → ℕ };

    ghost made: { ℕ → ℕ → Self };

    // The two numbers of an entry.
    fn numbers(self) -> (u64, u64)
        ensures { (result.0 ≡ first self) × (result.1 ≡ second self) };

    // The entry of the numbers a and b: what any two hold.
    fn of(a: u64, b: u64) -> Self
        ensures { result ≡ made a b };
}

fn flags_of(enabled: bool, lfe: bool) -> u64
    ensures { result ≡ bit enabled + 2 * bit lfe }
{
    u64::from(enabled) + 2 * u64::from(lfe)
}

// The pattern of a double, with -0 as 0.
fn pattern_of(x: f64) -> u64
    ensures { result ≡ pattern x }
{
    doubles::bits_of(x + 0.0)
}

impl Entry for Channel {
    ghost first = { channel_name };

    ghost second = { flag_number };

    ghost made = { channel_in };

    fn numbers(self) -> (u64, u64) {
        (self.name, flags_of(self.enabled, self.lfe))
    }

    // Flags 1 and 3 say enabled, 2 and 3 LFE.
    fn of(a: u64, b: u64) -> Channel {
        Channel {
            name: a,
            enabled: matches!(b, 1 | 3),
            lfe: matches!(b, 2 | 3),
        }
    }
}

impl Entry for Layer {
    ghost first = { layer_count };

    ghost second = { z_pattern };

    ghost made = { layer_in };

    fn numbers(self) -> (u64, u64) {
        (self.count as u64, pattern_of(self.z))
    }

    fn of(a: u64, b: u64) -> Layer {
        Layer {
            z: of_bits(b),
            count: a as usize,
        }
    }
}

impl Entry for Row {
    ghost first = { row_count };

    ghost second = { y_pattern };

    ghost made = { row_in };

    fn numbers(self) -> (u64, u64) {
        (self.count as u64, pattern_of(self.y))
    }

    fn of(a: u64, b: u64) -> Row {
        Row {
            y: of_bits(b),
            count: a as usize,
        }
    }
}

impl Entry for Anchor {
    ghost first = { anchor_name };

    ghost second = { x_pattern };

    ghost made = { anchor_in };

    fn numbers(self) -> (u64, u64) {
        (self.name, pattern_of(self.x))
    }

    fn of(a: u64, b: u64) -> Anchor {
        Anchor {
            name: a,
            x: of_bits(b),
        }
    }
}
