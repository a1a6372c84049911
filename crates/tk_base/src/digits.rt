//! The numbers that decimal digits write.

ghost use Rattle.std.specs.Prelude.{◌≡◌, ◌<◌, ◌≤◌, ◌^◌, length, IfSome};
ghost use Rattle.tk_base.specs.Digits.{digits_in, short_in};

const MAX_DIGITS: usize = 38;

// So many fit in 8 bytes, where each takes fewer steps.
const MAX_SHORT: usize = 18;

/// The number that 1 to 18 decimal digits write.
fn short_digits_of(text: &[u8]) -> Option<u64>
    requires some { 0 < length text.now }
    requires short { length text.now ≤ 18 }
    ensures value { result ≡ digits_in text.now }
    ensures small { IfSome result (λ n. n < 10 ^ length text.now) }
{
    let mut number = 0u64;
    for digit in text {
        if !digit.is_ascii_digit() {
            return None;
        }
        number = number * 10 + u64::from(*digit - b'0');
    }
    Some(number)
}

/// The number that 1 to 38 decimal digits write.
pub fn digits_of(text: &[u8]) -> Option<u128>
    ensures value { result ≡ digits_in text.now }
    ensures small { IfSome result (λ n. n < 10 ^ length text.now) }
    ensures fits { IfSome result (λ n. n < 2 ^ 127) }
{
    if text.is_empty() || text.len() > MAX_DIGITS {
        return None;
    }
    if text.len() <= MAX_SHORT {
        return Some(u128::from(short_digits_of(text)?));
    }
    let mut number = 0u128;
    for digit in text {
        if !digit.is_ascii_digit() {
            return None;
        }
        number = number * 10 + u128::from(*digit - b'0');
    }
    Some(number)
}

/// The number that 1 to 18 decimal digits write.
pub fn short_of(text: &[u8]) -> Option<u64>
    ensures { result ≡ short_in text.now }
{
    if text.len() > MAX_SHORT {
        return None;
    }
    Some(digits_of(text)? as u64)
}
