//! The narrow form of a number at a leaf or a node.

ghost use Rattle.std.specs.Prelude.{◌≡◌, ◌^◌, ◌≤◌, ℤ, pos, ◌-ℤ◌, IfSome, IsNone, IsSome, Some, unsigned_abs};
ghost use Rattle.tk_rank.specs.Node.{narrow_number, wide_number};
ghost use Rattle.tk_rank.specs.Tree.{is_over, Moves};

use crate::node::Node;
use crate::wide::Wide;

/// A number, or none, in 8 bytes.
#[derive(Clone, Copy, Debug)]
pub(crate) struct Narrow {
    /// The least of all stands for none.
    number: i64,
}

impl Narrow {
    /// The number in 8 bytes, unless it takes more.
    pub fn of(number: i128) -> Option<Narrow>
        ensures some { IfSome result (λ node. narrow_number node ≡ Some number) }
        ensures none { IsNone result → 2 ^ 63 ≤ unsigned_abs number }
    {
        if number <= i128::from(i64::MIN) || number > i128::from(i64::MAX) {
            return None;
        }
        Some(Narrow {
            number: number as i64,
        })
    }

    /// The number moved, unless there is none or the amount or the sum takes more than 8 bytes.
    pub fn moved(self, by: i128) -> Option<Narrow>
        ensures { IfSome result (λ node. Moves by (narrow_number self) (narrow_number node)) }
    {
        let by = i64::try_from(by).ok()?;
        let number = self.number.checked_add(by)?;
        if self.number == i64::MIN || number == i64::MIN {
            return None;
        }
        Some(Narrow { number })
    }

    /// Whether there is a number and it is above another one, of which the sign is turned.
    pub fn is_over_turned(self, turned: Narrow) -> bool
        requires { IsSome (narrow_number turned) }
        ensures { (x : ℤ) → narrow_number turned ≡ Some x → result ≡ is_over (pos 0 -ℤ x) (narrow_number self) }
    {
        -turned.number < self.number
    }

    /// The size of what stands for it.
    pub fn size(self) -> u64 {
        self.number.unsigned_abs()
    }

    /// The same in 16 bytes.
    pub fn wide(self) -> Wide
        ensures { wide_number result ≡ narrow_number self }
    {
        if self.number == i64::MIN {
            Wide::none()
        } else {
            Wide::of(i128::from(self.number))
        }
    }
}

impl Node for Narrow {
    ghost number = { narrow_number };

    fn none() -> Narrow {
        Narrow { number: i64::MIN }
    }

    fn get(self) -> Option<i128> {
        if self.number == i64::MIN {
            None
        } else {
            Some(i128::from(self.number))
        }
    }

    fn is_same(self, other: Narrow) -> bool {
        self.number == other.number
    }

    fn greater(self, other: Narrow) -> Narrow {
        Narrow {
            number: self.number.max(other.number),
        }
    }

    fn is_over(self, level: i128) -> bool {
        self.number > i64::MIN && level < i128::from(self.number)
    }
}
