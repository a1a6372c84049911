//! Lists in the order of their objects: whether one ascends, and where an object stands in it.

ghost use Rattle.std.specs.Prelude.{◌≡◌, ℕ, ◌<◌, length, map, slice_index, IfSome, IfNone, Contains};
ghost use Rattle.tk_base.specs.Ascending.{IsAscending, FirstDisorder};

use crate::ids::Obj;
use std::error::Error;
use std::fmt;

/// The first place, from 0, whose object is 0 or not above the one before.
#[derive(Clone, Copy, Debug, PartialEq, Eq)]
pub struct NotAscending {
    pub place: usize,
}

impl fmt::Display for NotAscending {
    ghost use Rattle.std.specs.Prelude.{Some, ◌++◌, codes};
    ghost use Rattle.std.specs.Fmt.{decimal};

    ghost output = { λ e. Some (codes "the object at place " ++ (decimal e.place ++ codes " is out of order")) };

    fn fmt<W: fmt::Write>(&self, f: &mut fmt::Formatter<W>) -> fmt::Result {
        write!(f, "the object at place {} is out of order", self.place)
    }
}

impl Error for NotAscending {}

/// What stands under the number of an object in a list.
pub trait Numbered {
    ghost number: { Self → ℕ };

    fn number(&self) -> u32
        ensures { result ≡ number self.now };
}

impl Numbered for Obj {
    ghost number = { λ o. o.0 };

    fn number(&self) -> u32 {
        self.0
    }
}

impl Numbered for (Obj, i128) {
    ghost number = { λ p. p.0.0 };

    fn number(&self) -> u32 {
        self.0.0
    }
}

/// The first place at which the numbers stop to ascend from 1.
pub fn first_disorder<T: Numbered>(list: &[T]) -> Option<usize>
    ensures none { IfNone result (IsAscending (map T.number list.now)) }
    ensures some { IfSome result (FirstDisorder (map T.number list.now)) }
{
    let mut before = 0;
    for (place, item) in list.iter().enumerate() {
        let number = item.number();
        if number <= before {
            return Some(place);
        }
        before = number;
    }
    None
}

/// The place of an object in a list that ascends, in logarithmic time.
pub fn place_of<T: Numbered>(list: &[T], o: Obj) -> Option<usize>
    requires { IsAscending (map T.number list.now) }
    ensures within { IfSome result (λ i. i < length list.now) }
    ensures found { IfSome result (λ i. slice_index (map T.number list.now) i ≡ o.0) }
    ensures none { IfNone result (Contains (map T.number list.now) o.0 → ⊥) }
{
    list.binary_search_by_key(&o.0, |item| item.number()).ok()
}
