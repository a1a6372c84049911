//! How far the parts of one monitor are reached, as one value.

ghost use Rattle.std.specs.Prelude.{◌≡◌, ◌<◌, ◌↔◌, IsTrue, IfOk, length, slice_index};

use crate::memory::NoMemory;
use std::marker::Model;

/// How many changes of each feeder of one monitor are reached, feeders ascending.
#[derive(Debug, Drop, Clone)]
pub struct Places {
    list: Vec<u32>,
}

impl Model for Places {
    ghost use Rattle.std.specs.Prelude.{ℕ, List};

    ghost Value = { List ℕ };

    ghost view = { λ p. p.list.items };
}

impl Places {
    /// The places of the feeders 1, 2, ..
    pub fn new(list: Vec<u32>) -> Places
        ensures { result ≡ list.items }
    {
        Places { list }
    }

    /// How many feeders there are.
    pub fn len(&self) -> usize
        ensures { result ≡ length self.now }
    {
        self.list.len()
    }

    /// The place of the feeder `i + 1`.
    pub fn at(&self, i: usize) -> u32
        requires { i < length self.now }
        ensures { result ≡ slice_index self.now i }
    {
        self.list[i]
    }

    /// The same places once more.
    pub fn try_clone(&self) -> Result<Places, NoMemory>
        ensures { IfOk result (λ p. p ≡ self.now) }
    {
        let list = self.list.clone()?;
        Ok(Places { list })
    }
}

impl PartialEq for Places {
    ghost use Rattle.std.specs.Prelude.{◌≡◌, ◌↔◌, IsTrue, nat_eq};
    ghost use Rattle.std.specs.Cmp.Lexicographic.{pointwise, lists_per};
    ghost use Rattle.tk_base.specs.Equal.{numbers_equal};

    ghost eq = { pointwise nat_eq };

    ghost laws = { lists_per numbers_equal };

    fn eq(&self, other: &Self) -> bool
        ensures value { result ≡ pointwise nat_eq self.now other.now }
        ensures same { IsTrue result ↔ (self.now ≡ other.now) }
    {
        self.list == other.list
    }
}
