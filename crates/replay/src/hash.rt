// A hash over numbers.
ghost use Rattle.std.specs.Prelude.{◌≡◌};
ghost use Rattle.replay.specs.Hash.{mixed_half, mixed_of, hash_of};

// The largest prime below 2 ^ 32: a hash is a number modulo it.
const MODULUS: u64 = 4294967291;

// What a hash is multiplied by where half a word is added.
const FACTOR: u64 = 65599;

// A hash and half a word more.
fn mixed_half(h: u64, half: u64) -> u64
    ensures { result ≡ mixed_half h half }
{
    (h % MODULUS * FACTOR + half % 0x1_0000_0000) % MODULUS
}

// A hash and a word more: its low half and then its high half.
pub fn mixed(h: u64, w: u64) -> u64
    ensures { result ≡ mixed_of h w }
{
    mixed_half(mixed_half(h, w), w / 0x1_0000_0000)
}

// A hash over the patterns of doubles, in order.
pub fn hash_doubles(xs: &[f64]) -> u64
    ensures { result ≡ hash_of xs.now }
{
    xs.iter().fold(0, |h, x| mixed(h, doubles::bits_of(*x)))
}
