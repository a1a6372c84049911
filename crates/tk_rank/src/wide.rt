//! The wide form of a number at a leaf or a node.

ghost use Rattle.std.specs.Prelude.{◌≡◌, ◌^◌, ◌<◌, Some, unsigned_abs};
ghost use Rattle.tk_rank.specs.Node.{wide_number};

use crate::node::Node;

/// A number, or none, in 16 bytes.
#[derive(Clone, Copy, Debug)]
pub(crate) struct Wide {
    /// The least of all stands for none: no level is as low.
    number: i128,
}

impl Wide {
    /// A number above the least.
    pub fn of(number: i128) -> Wide
        requires { unsigned_abs number < 2 ^ 114 }
        ensures { wide_number result ≡ Some number }
    {
        Wide { number }
    }
}

impl Node for Wide {
    ghost number = { wide_number };

    fn none() -> Wide {
        Wide { number: i128::MIN }
    }

    fn get(self) -> Option<i128> {
        if self.number == i128::MIN {
            None
        } else {
            Some(self.number)
        }
    }

    fn is_same(self, other: Wide) -> bool {
        self.number == other.number
    }

    fn greater(self, other: Wide) -> Wide {
        Wide {
            number: self.number.max(other.number),
        }
    }

    fn is_over(self, level: i128) -> bool {
        level < self.number
    }
}
