//! The whole numbers of records.

ghost use Rattle.std.specs.Prelude.{◌≡◌, ◌<◌, ◌^◌, IfSome, neg_ℤ, option_map, pos, unsigned_abs};
ghost use Rattle.tk_base.specs.Digits.{digits_in};
ghost use Rattle.tk_input.specs.Number.{whole_number};

use tk_base::digits_of;

fn negative_of(digits: &[u8]) -> Option<i128>
    ensures value { result ≡ option_map (λ n. neg_ℤ (pos n)) (digits_in digits.now) }
    ensures size { IfSome result (λ z. unsigned_abs z < 2 ^ 127) }
{
    Some(-(digits_of(digits)? as i128))
}

fn positive_of(digits: &[u8]) -> Option<i128>
    ensures value { result ≡ option_map pos (digits_in digits.now) }
    ensures size { IfSome result (λ z. unsigned_abs z < 2 ^ 127) }
{
    Some(digits_of(digits)? as i128)
}

/// The whole number that a text writes: a sign or none, and 1 to 38 decimal digits.
pub fn whole_number_of(text: &[u8]) -> Option<i128>
    ensures value { result ≡ whole_number text.now }
    ensures size { IfSome result (λ z. unsigned_abs z < 2 ^ 127) }
{
    match text {
        [b'-', digits @ ..] => negative_of(digits),
        [b'+', digits @ ..] => positive_of(digits),
        digits => positive_of(digits),
    }
}
