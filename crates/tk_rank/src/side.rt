//! One side of a rank, which turns wide at the first number that needs it.

ghost use Rattle.std.specs.Prelude.{◌≡◌, ℕ, ◌^◌, ◌<◌, ◌≤◌, length, IfOk, IfSome, slice_index_or, slice_set, unsigned_abs, true, false, Some, None};
ghost use Rattle.tk_base.specs.Ascending.{numbers_of};
ghost use Rattle.tk_rank.specs.Node.{narrow_number};
ghost use Rattle.tk_rank.specs.Tree.{greatest_leaf, greatest_leaf_outside, objects_over, HasRoom, Shifts};

use crate::blocks::Blocks;
use crate::narrow::Narrow;
use crate::node::Node;
use crate::wide::Wide;
use std::alloc::Global;
use std::marker::Model;
use tk_base::{NoMemory, Obj, ObjSet};

/// The numbers of the members or of the outsiders, at some places.
#[derive(Debug, Drop)]
pub(crate) struct Side {
    /// The numbers, as long as each fits in 8 bytes.
    narrow: Blocks<Narrow>,
    /// The numbers from the first on that does not; none before, with room for them all.
    wide: Blocks<Wide>,
}

// Clauses see the leaves, and how many there is room for.
impl Model for Side {
    ghost use Rattle.std.specs.Prelude.{◌≡◌};
    ghost use Rattle.tk_rank.specs.Tree.{LeavesView, leaves_in};

    ghost Value = { LeavesView };

    ghost view = { λ s. record { leaves = leaves_in s.narrow.leaves s.wide.leaves; room = s.narrow.room } };

    ghost invariant = { λ s. s.wide.room ≡ s.narrow.room };
}

/// Writes the same numbers in 16 bytes each.
#[cold]
#[inline(never)]
fn widen(narrow: &Blocks<Narrow>, wide: &mut Blocks<Wide>)
    requires { wide.old.room ≡ narrow.now.room }
    ensures leaves { wide.new.leaves ≡ narrow.now.leaves }
    ensures room { wide.new.room ≡ wide.old.room }
{
    wide.clear(narrow.len());
    for place in 0..narrow.len() {
        wide.set(place, narrow.leaf(place).wide());
    }
}

impl Side {
    /// No leaf, with room for a leaf for each object. The room is not written.
    pub fn with_room(alloc: Global, objects: usize) -> Result<Side, NoMemory>
        requires { objects ≤ 65536 }
        ensures { IfOk result (λ s. HasRoom objects s.room) }
    {
        Ok(Side {
            narrow: Blocks::with_room(alloc, objects)?,
            wide: Blocks::with_room(alloc, objects)?,
        })
    }

    /// Takes empty leaves for what was there, at least so many. They are narrow.
    pub fn clear(&mut self, leaves: usize)
        requires few { leaves ≤ 65536 }
        requires room { HasRoom leaves self.old.room }
        ensures enough { leaves ≤ length self.new.leaves }
        ensures empty { (i : ℕ) → slice_index_or self.new.leaves i None ≡ None }
        ensures room { self.new.room ≡ self.old.room }
    {
        self.wide.clear(0);
        self.narrow.clear(leaves);
    }

    /// The number at a place from 0.
    pub fn leaf(&self, place: usize) -> Option<i128>
        requires { place < length self.now.leaves }
        ensures { result ≡ slice_index_or self.now.leaves place None }
    {
        if self.wide.len() == 0 {
            self.narrow.leaf(place).get()
        } else {
            self.wide.leaf(place).get()
        }
    }

    /// Puts another number at a place. The first that does not fit in 8 bytes takes the time of all leaves.
    pub fn set(&mut self, place: usize, number: i128)
        requires within { place < length self.old.leaves }
        requires size { unsigned_abs number < 2 ^ 114 }
        ensures leaves { self.new.leaves ≡ slice_set self.old.leaves place (Some number) }
        ensures room { self.new.room ≡ self.old.room }
    {
        if self.wide.len() == 0 {
            if let Some(leaf) = Narrow::of(number) {
                self.narrow.set(place, leaf);
                return;
            }
            widen(&self.narrow, &mut self.wide);
        }
        self.wide.set(place, Wide::of(number));
    }

    /// Moves the number at a place within 8 bytes, or tells that it does not and leaves all as it is.
    pub fn shift(&mut self, place: usize, by: i128) -> bool
        requires { place < length self.old.leaves }
        ensures moved { result ≡ true → Shifts place by self.old.leaves self.new.leaves }
        ensures still { result ≡ false → self.new.leaves ≡ self.old.leaves }
        ensures room { self.new.room ≡ self.old.room }
    {
        if self.wide.len() != 0 {
            return false;
        }
        match self.narrow.leaf(place).moved(by) {
            Some(leaf) => {
                self.narrow.set(place, leaf);
                true
            }
            None => false,
        }
    }

    /// A look at a place, as long as its number has 8 bytes.
    pub fn touch(&self, place: usize) -> u64
        requires { place < length self.now.leaves }
    {
        if self.wide.len() == 0 {
            self.narrow.leaf(place).size()
        } else {
            0
        }
    }

    /// Takes the number away from a place.
    pub fn remove(&mut self, place: usize)
        requires { place < length self.old.leaves }
        ensures leaves { self.new.leaves ≡ slice_set self.old.leaves place None }
        ensures room { self.new.room ≡ self.old.room }
    {
        if self.wide.len() == 0 {
            self.narrow.set(place, Narrow::none());
        } else {
            self.wide.set(place, Wide::none());
        }
    }

    /// The greatest number, read at the root.
    pub fn greatest(&self) -> Option<i128>
        ensures { result ≡ greatest_leaf self.now.leaves }
    {
        if self.wide.len() == 0 {
            self.narrow.greatest().get()
        } else {
            self.wide.greatest().get()
        }
    }

    /// The greatest number in 8 bytes, as long as each fits in so many.
    pub fn narrow_greatest(&self) -> Option<Narrow>
        ensures { IfSome result (λ top. narrow_number top ≡ greatest_leaf self.now.leaves) }
    {
        if self.wide.len() == 0 {
            Some(self.narrow.greatest())
        } else {
            None
        }
    }

    /// The objects whose number is above a level.
    pub fn above(&self, alloc: Global, level: i128) -> Result<Vec<Obj>, NoMemory>
        ensures { IfOk result (λ v. numbers_of v.items ≡ objects_over level self.now.leaves) }
    {
        if self.wide.len() == 0 {
            self.narrow.above(alloc, level)
        } else {
            self.wide.above(alloc, level)
        }
    }

    /// The greatest number outside a set.
    pub fn greatest_outside(&self, set: &ObjSet) -> Option<i128>
        ensures { result ≡ greatest_leaf_outside self.now.leaves set.now }
    {
        if self.wide.len() == 0 {
            self.narrow.greatest_outside(set)
        } else {
            self.wide.greatest_outside(set)
        }
    }
}
