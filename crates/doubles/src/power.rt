// Powers of two, and the floor of the logarithm to the base two.
ghost use Rattle.std.specs.Prelude.{◌≡◌};
ghost use Rattle.std.specs.Float.{binary64};
ghost use Rattle.doubles.specs.Power.{pow2_of, floor_log2};

// 2 ^ n: exact from -1074 to 1023, 0 below and infinity above.
pub fn pow2(n: i64) -> f64
    ensures { result ≡ pow2_of binary64 n }
{
    if n > 1023 {
        f64::INFINITY
    } else if n >= -1022 {
        f64::from_bits(((n + 1023) as u64) << 52)
    } else if n >= -1074 {
        f64::from_bits(1 << ((n + 1074) as u64))
    } else {
        0.0
    }
}

// The same for a 32-bit n, as `powi` takes it. No type parameter of `pow2`: its clause would have to
// say which number an N is.
pub fn pow2_i32(n: i32) -> f64
    ensures { result ≡ pow2_of binary64 n }
{
    pow2(i64::from(n))
}

// The n with 2 ^ n <= |x| < 2 ^ (n + 1), subnormals included. 0 where there is none: for zeros,
// infinities and NaN. No Option: a public function that could not fail still can't.
pub fn floor_log2(x: f64) -> i64
    ensures { result ≡ floor_log2 x }
{
    if x.is_nan() {
        return 0;
    }
    let b = x.to_bits() & 0x7fff_ffff_ffff_ffff;
    let e = b >> 52;
    if e == 0 {
        if b == 0 {
            return 0;
        }
        return -1011 - i64::from(b.leading_zeros());
    }
    if e == 2047 {
        return 0;
    }
    (e as i64) - 1023
}
