//! How far the logs of all monitors are reached, as one value.

ghost use Rattle.std.specs.Prelude.{◌≡◌, ◌<◌, ◌↔◌, IsTrue, IfOk, length, Some, slice_get};

use crate::memory::NoMemory;
use crate::places::Places;
use std::marker::Model;

/// The places of each monitor, monitors ascending: a front of each log.
#[derive(Debug, Drop)]
pub struct Cut {
    list: Vec<Places>,
}

impl Model for Cut {
    ghost use Rattle.std.specs.Prelude.{ℕ, List};

    ghost Value = { List (List ℕ) };

    ghost view = { λ c. c.list.items };
}

impl Cut {
    /// The places of the monitors 1, 2, ..
    pub fn new(list: Vec<Places>) -> Cut
        ensures { result ≡ list.items }
    {
        Cut { list }
    }

    /// How many monitors there are.
    pub fn len(&self) -> usize
        ensures { result ≡ length self.now }
    {
        self.list.len()
    }

    /// The places of the monitor `i + 1`.
    pub fn at(&self, i: usize) -> &Places
        requires { i < length self.now }
        ensures { slice_get self.now i ≡ Some result.now }
    {
        &self.list[i]
    }

    /// The same cut once more.
    pub fn try_clone(&self) -> Result<Cut, NoMemory>
        ensures { IfOk result (λ c. c ≡ self.now) }
    {
        let list = self.list.clone()?;
        Ok(Cut { list })
    }
}

impl PartialEq for Cut {
    ghost use Rattle.std.specs.Prelude.{◌≡◌, ◌↔◌, IsTrue, nat_eq};
    ghost use Rattle.std.specs.Cmp.Lexicographic.{pointwise, lists_per};
    ghost use Rattle.tk_base.specs.Equal.{numbers_equal};

    ghost eq = { pointwise (pointwise nat_eq) };

    ghost laws = { lists_per (lists_per numbers_equal) };

    fn eq(&self, other: &Self) -> bool
        ensures value { result ≡ pointwise (pointwise nat_eq) self.now other.now }
        ensures same { IsTrue result ↔ (self.now ≡ other.now) }
    {
        self.list == other.list
    }
}
