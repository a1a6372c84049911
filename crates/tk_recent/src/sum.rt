//! The sum of an object in a tick, which may pass the limits of values but has 127 bits.

ghost use Rattle.std.specs.Prelude.{◌≡◌, ◌<◌, ◌≤◌, ◌^◌, ◌+ℤ◌, IfOk, OnErr, unsigned_abs};

use std::error::Error;
use std::fmt;

/// A sum has no 127 bits.
#[derive(Clone, Copy, Debug, PartialEq, Eq)]
pub struct TooGreat;

impl fmt::Display for TooGreat {
    fn fmt<W: fmt::Write>(&self, f: &mut fmt::Formatter<W>) -> fmt::Result {
        f.write_str("the sum of a tick is too great")
    }
}

impl Error for TooGreat {}

/// A sum with one more amount. Its opposite fits too.
pub(crate) fn sum_of(sum: i128, by: i128) -> Result<i128, TooGreat>
    ensures ok { IfOk result (λ new. new ≡ sum +ℤ by) }
    ensures size { IfOk result (λ new. unsigned_abs new < 2 ^ 127) }
    ensures err { OnErr result (2 ^ 127 ≤ unsigned_abs (sum +ℤ by)) }
{
    match sum.checked_add(by) {
        Some(new) if new != i128::MIN => Ok(new),
        _ => Err(TooGreat),
    }
}
