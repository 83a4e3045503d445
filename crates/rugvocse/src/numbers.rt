// Numbers and names of a script.

fn digit(c: u8) -> Option<u64> {
    char::from(c).to_digit(10).map(u64::from)
}

// A number with decimal digits behind it, up to 2 ^ 64 - 1. Not by `parse`, which takes a + in front.
fn with_digits(number: u64, digits: &[u8]) -> Option<u64> {
    digits
        .iter()
        .try_fold(number, |n, c| n.checked_mul(10)?.checked_add(digit(*c)?))
}

// A decimal whole number, up to 2 ^ 64 - 1.
pub fn whole(token: &[u8]) -> Option<u64> {
    if token.is_empty() {
        return None;
    }
    with_digits(0, token)
}

// 16 hexadecimal digits.
fn pattern(digits: &[u8]) -> Option<u64> {
    let is_pattern = digits.len() == 16 && digits.iter().all(|c| c.is_ascii_hexdigit());
    is_pattern.then(|| replay::hex(digits))
}

// The digits before and after a point, at most 15: as a number over a power of ten.
fn quotient(before: &[u8], after: &[u8]) -> Option<f64> {
    if before.is_empty() || 15 < before.len() + after.len() {
        return None;
    }
    let number = with_digits(with_digits(0, before)?, after)?;
    let power = 10u64.checked_pow(after.len() as u32)?;
    Some(std::num::nearest_u64_to_f64(number) / std::num::nearest_u64_to_f64(power))
}

// digits[.digits] of at most 15 digits.
fn unsigned(token: &[u8]) -> Option<f64> {
    let Some(point) = token.iter().position(|c| *c == b'.') else {
        return quotient(token, &[]);
    };
    let after = &token[point + 1..];
    if after.is_empty() {
        return None;
    }
    quotient(&token[..point], after)
}

// A double: x and its pattern, or [-]digits[.digits] of at most 15 digits.
pub fn double(token: &[u8]) -> Option<f64> {
    match token {
        [b'x', digits @ ..] => Some(doubles::of_bits(pattern(digits)?)),
        [b'-', rest @ ..] => Some(-unsigned(rest)?),
        _ => unsigned(token),
    }
}

// A name: 1 to 8 plain bytes, or a backslash and 16 hexadecimal digits.
pub fn name(token: &[u8]) -> Option<u64> {
    let n = token.len();
    match token {
        [b'\\', digits @ ..] if n == 17 => pattern(digits),
        _ if 0 < n && n <= 8 && token.iter().all(|c| c.is_ascii_graphic()) => {
            Some(replay::packed(token))
        }
        _ => None,
    }
}
