//! Sets of objects, by which members, broken outsiders and the objects that are asked for are named.

ghost use Rattle.std.specs.Prelude.{◌≡◌, ◌<◌, ◌↔◌, IsTrue, IfOk, IfErr, IsOk, length, slice_index, Contains};
ghost use Rattle.tk_base.specs.Ascending.{IsAscending, FirstDisorder};

use crate::ids::Obj;
use crate::memory::NoMemory;
use crate::numbered::{NotAscending, first_disorder, place_of};
use std::marker::Model;

/// A strictly ascending list of objects from 1, which contracts see as the list of their numbers.
#[derive(Debug, Drop)]
pub struct ObjSet {
    list: Vec<Obj>,
}

impl Model for ObjSet {
    ghost use Rattle.std.specs.Prelude.{ℕ, List};
    ghost use Rattle.tk_base.specs.Ascending.{IsAscending, numbers_of};

    ghost Value = { List ℕ };

    ghost view = { λ s. numbers_of s.list.items };

    ghost invariant = { λ s. IsAscending (numbers_of s.list.items) };
}

impl ObjSet {
    ghost use Rattle.tk_base.specs.Ascending.{numbers_of};

    /// Takes the list as it is, in one pass over it.
    pub fn new(list: Vec<Obj>) -> Result<ObjSet, NotAscending>
        ensures ok { IfOk result (λ s. s ≡ numbers_of list.items) }
        ensures ascends { IsOk result ↔ IsAscending (numbers_of list.items) }
        ensures place { IfErr result (λ e. FirstDisorder (numbers_of list.items) e.place) }
    {
        match first_disorder(list.as_slice()) {
            Some(place) => Err(NotAscending { place }),
            None => Ok(ObjSet { list }),
        }
    }

    /// How many objects there are.
    pub fn len(&self) -> usize
        ensures value { result ≡ length self.now }
        ensures ascends { IsAscending self.now }
    {
        self.list.len()
    }

    /// The object at a place from 0, in ascending order.
    pub fn at(&self, i: usize) -> Obj
        requires { i < length self.now }
        ensures value { result.0 ≡ slice_index self.now i }
        ensures ascends { IsAscending self.now }
    {
        self.list[i]
    }

    /// Looks the object up, in logarithmic time.
    pub fn has(&self, o: Obj) -> bool
        ensures { IsTrue result ↔ Contains self.now o.0 }
    {
        place_of(self.list.as_slice(), o).is_some()
    }

    /// The same set once more.
    pub fn try_clone(&self) -> Result<ObjSet, NoMemory>
        ensures { IfOk result (λ s. s ≡ self.now) }
    {
        let list = self.list.clone()?;
        Ok(ObjSet { list })
    }
}

impl PartialEq for ObjSet {
    ghost use Rattle.std.specs.Prelude.{◌≡◌, ◌↔◌, IsTrue, nat_eq};
    ghost use Rattle.std.specs.Cmp.Lexicographic.{pointwise, lists_per};
    ghost use Rattle.tk_base.specs.Equal.{numbers_equal};

    ghost eq = { pointwise nat_eq };

    ghost laws = { lists_per numbers_equal };

    fn eq(&self, other: &Self) -> bool
        ensures value { result ≡ pointwise nat_eq self.now other.now }
        ensures same { IsTrue result ↔ (self.now ≡ other.now) }
    {
        self.list == other.list
    }
}
