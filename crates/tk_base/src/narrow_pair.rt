//! The short form of a pair, for the numbers that fit in it.

ghost use Rattle.std.specs.Prelude.{◌≡◌, ◌≤◌, ◌^◌, ◌↔◌, IfSome, IsNone, IsSome, FitsSigned, unsigned_abs};
ghost use Rattle.std.specs.Int.{w32};
ghost use Rattle.tk_base.specs.Pairs.{narrow_pair_of};

use crate::ids::Obj;
use crate::numbered::Numbered;

/// An object with a number that fits in 4 bytes: 8 bytes in place of the 32 of a pair.
#[derive(Clone, Copy, Debug, PartialEq)]
pub struct NarrowPair {
    obj: Obj,
    by: i32,
}

impl NarrowPair {
    /// The pair in 8 bytes, unless its number takes more than 4.
    pub fn of(o: Obj, number: i128) -> Option<NarrowPair>
        ensures some { IfSome result (λ narrow. narrow_pair_of narrow ≡ (o.0, number)) }
        ensures none { IsNone result → 2 ^ 31 ≤ unsigned_abs number }
        ensures fits { IsSome result ↔ FitsSigned w32 number }
    {
        if number < i128::from(i32::MIN) || number > i128::from(i32::MAX) {
            return None;
        }
        Some(NarrowPair {
            obj: o,
            by: number as i32,
        })
    }

    /// The same pair in 32 bytes.
    pub fn wide(self) -> (Obj, i128)
        ensures { (result.0.0, result.1) ≡ narrow_pair_of self }
    {
        (self.obj, i128::from(self.by))
    }
}

impl Numbered for NarrowPair {
    ghost number = { λ p. p.obj.0 };

    fn number(&self) -> u32 {
        self.obj.0
    }
}
