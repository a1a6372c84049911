//! The rank of a node: levels that change, and the least member, greatest outsider and borders read from them.

ghost use Rattle.std.specs.Prelude.{◌≡◌, ◌+◌, ◌-◌, ◌^◌, ◌<◌, ◌≤◌, ℤ, pos, ◌+ℤ◌, ◌≤ℤ◌, unsigned_abs, IsTrue, length, nat_lt, IfOk, Some, slice_set};
ghost use Rattle.tk_base.specs.Objects.{is_in};
ghost use Rattle.tk_border.specs.Levels.{level_at, least_member, greatest_outside, above, broken, border, own_border, holds, AreMembers, AreObjects, AreSmall};
ghost use Rattle.tk_rank.specs.Rank.{IsRanked};

use crate::side::Side;
use crate::sides::{
    are_listed, holds_all, list_members, number_in, place_of, read_member, release, relevel, seat,
    seat_of, take,
};
use std::alloc::Global;
use std::marker::Model;
use tk_base::{NoMemory, Obj, ObjSet};

/// The levels of all objects at one node, and which of them are members. A level stands at a leaf alone.
#[derive(Debug, Drop)]
pub struct Rank {
    count: usize,
    list: Vec<Obj>,
    members: Side,
    outsiders: Side,
}

impl Model for Rank {
    ghost use Rattle.std.specs.Prelude.{vec_capacity};
    ghost use Rattle.tk_base.specs.Ascending.{numbers_of};
    ghost use Rattle.tk_rank.specs.Rank.{RankView};
    ghost use Rattle.tk_rank.specs.Sides.{levels_of, IsKept};

    ghost Value = { RankView };

    ghost view = { λ r. record {
      levels = levels_of r.count (numbers_of r.list.items) r.members.leaves r.outsiders.leaves;
      members = numbers_of r.list.items;
    } };

    ghost invariant = { λ r.
        IsKept (levels_of r.count (numbers_of r.list.items) r.members.leaves r.outsiders.leaves)
        (numbers_of r.list.items) (vec_capacity r.list) r.members r.outsiders.leaves };
}

impl Rank {
    /// Takes the levels, in the time of a set of each.
    pub fn new(alloc: Global, levels: &[i128], members: &ObjSet) -> Result<Rank, NoMemory>
        requires objects { AreObjects levels.now }
        requires sizes { AreSmall levels.now }
        requires members { AreMembers (length levels.now) members.now }
        ensures { IfOk result (λ r. r ≡ record { levels = levels.now; members = members.now }) }
    {
        // Their number is read for its clause, that they ascend.
        let _ = members.len();
        let mut list = Vec::with_capacity(alloc, levels.len())?;
        let mut member_side = Side::with_room(alloc, levels.len())?;
        let mut outsider_side = Side::with_room(alloc, levels.len())?;
        seat(levels, &mut outsider_side);
        list_members(&mut list, members);
        take(members, &mut member_side, &mut outsider_side);
        Ok(Rank {
            count: levels.len(),
            list,
            members: member_side,
            outsiders: outsider_side,
        })
    }

    /// The number of objects.
    pub fn len(&self) -> usize
        ensures value { result ≡ length self.now.levels }
        ensures limits { IsRanked self.now }
    {
        self.count
    }

    /// The level of an object, read at its leaf among the outsiders, else at that of its place among the members.
    pub fn level(&self, o: Obj) -> i128
        requires from_one { 0 < o.0 }
        requires within { o.0 ≤ length self.now.levels }
        ensures value { result ≡ level_at self.now.levels o.0 }
        ensures size { unsigned_abs result < 2 ^ 114 }
    {
        match self.outsiders.leaf(seat_of(o)) {
            Some(level) => level,
            None => read_member(o, self.list.as_slice(), &self.members),
        }
    }

    /// Gives an object another level: its leaf, at most its block, and the tree over the blocks as far as it changes.
    pub fn set(&mut self, o: Obj, level: i128)
        requires from_one { 0 < o.0 }
        requires within { o.0 ≤ length self.old.levels }
        requires size { unsigned_abs level < 2 ^ 114 }
        ensures { self.new ≡ record self.old { levels = slice_set self.old.levels (o.0 - 1) level } }
    {
        relevel(
            o,
            level,
            self.list.as_slice(),
            &mut self.members,
            &mut self.outsiders,
        );
    }

    /// Moves the level of an object, in the time of a set. In 8 bytes an outsider's costs a look at its leaf and at the
    /// greatest of its block, unless that changes.
    pub fn shift(&mut self, o: Obj, by: i128)
        requires from_one { 0 < o.0 }
        requires within { o.0 ≤ length self.old.levels }
        requires size { unsigned_abs (level_at self.old.levels o.0 +ℤ by) < 2 ^ 114 }
        ensures { self.new
            ≡ record self.old { levels = slice_set self.old.levels (o.0 - 1) (level_at self.old.levels o.0 +ℤ by) } }
    {
        if !self.outsiders.shift(seat_of(o), by) {
            self.shift_by_level(o, by);
        }
    }

    /// The same by way of the level in 16 bytes, on either side.
    fn shift_by_level(&mut self, o: Obj, by: i128)
        requires from_one { 0 < o.0 }
        requires within { o.0 ≤ length self.old.levels }
        requires size { unsigned_abs (level_at self.old.levels o.0 +ℤ by) < 2 ^ 114 }
        ensures { self.new
            ≡ record self.old { levels = slice_set self.old.levels (o.0 - 1) (level_at self.old.levels o.0 +ℤ by) } }
    {
        match self.outsiders.leaf(seat_of(o)) {
            Some(level) => self.outsiders.set(seat_of(o), level + by),
            None => self.shift_member(o, by),
        }
    }

    /// A look at the leaf of an outsider in 8 bytes, of use for no answer: it has the leaf near when its level is moved next.
    pub fn touch(&self, o: Obj) -> u64
        requires from_one { 0 < o.0 }
        requires within { o.0 ≤ length self.now.levels }
    {
        self.outsiders.touch(seat_of(o))
    }

    fn shift_member(&mut self, o: Obj, by: i128)
        requires from_one { 0 < o.0 }
        requires within { o.0 ≤ length self.old.levels }
        requires member { IsTrue (is_in self.old.members o.0) }
        requires size { unsigned_abs (level_at self.old.levels o.0 +ℤ by) < 2 ^ 114 }
        ensures { self.new
            ≡ record self.old { levels = slice_set self.old.levels (o.0 - 1) (level_at self.old.levels o.0 +ℤ by) } }
    {
        if let Some(place) = place_of(self.list.as_slice(), o) {
            // Its leaf has the level with the sign turned.
            let turned = number_in(&self.members, place);
            self.members.set(place, turned - by);
        }
    }

    /// Takes other members, in the time of a set of each level of both; the same ones cost a look at each.
    pub fn set_members(&mut self, members: &ObjSet)
        requires { AreMembers (length self.old.levels) members.now }
        ensures { self.new ≡ record self.old { members = members.now } }
    {
        if !are_listed(self.list.as_slice(), members) {
            self.exchange(members);
        }
    }

    fn exchange(&mut self, members: &ObjSet)
        requires { AreMembers (length self.old.levels) members.now }
        ensures { self.new ≡ record self.old { members = members.now } }
    {
        // Their number is read for its clause, that they ascend.
        let _ = members.len();
        release(self.list.as_slice(), &self.members, &mut self.outsiders);
        list_members(&mut self.list, members);
        take(members, &mut self.members, &mut self.outsiders);
    }

    /// The least level of a member, read at a root.
    pub fn least_member(&self) -> i128
        ensures value { least_member self.now.levels self.now.members ≡ Some result }
        ensures size { unsigned_abs result < 2 ^ 114 }
    {
        -self.members.greatest().unwrap()
    }

    /// The greatest level of an outsider, read at a root; there is none where every object is a member.
    pub fn greatest_outsider(&self) -> Option<i128>
        ensures { result ≡ greatest_outside self.now.levels self.now.members }
    {
        self.outsiders.greatest()
    }

    /// Whether some outsider is above the least member, read at two roots.
    pub fn is_broken(&self) -> bool
        ensures { result ≡ nat_lt 0 (length (broken self.now.levels self.now.members)) }
    {
        if let Some(turned) = self.members.narrow_greatest() {
            if let Some(greatest) = self.outsiders.narrow_greatest() {
                return greatest.is_over_turned(turned);
            }
        }
        self.is_broken_by_level()
    }

    /// The same by way of levels in 16 bytes.
    fn is_broken_by_level(&self) -> bool
        ensures { result ≡ nat_lt 0 (length (broken self.now.levels self.now.members)) }
    {
        let least = self.least_member();
        match self.greatest_outsider() {
            None => false,
            Some(greatest) => least < greatest,
        }
    }

    /// The outsiders above a level, in the time of all blocks and of the leaves of those that have one.
    pub fn above(&self, alloc: Global, level: i128) -> Result<ObjSet, NoMemory>
        ensures { IfOk result (λ s. s ≡ above self.now.levels self.now.members level) }
    {
        let list = self.outsiders.above(alloc, level)?;
        Ok(ObjSet::new(list).unwrap())
    }

    /// Whether a set holds the members, in the time of their number times a logarithm.
    pub fn is_held_by(&self, r: &ObjSet) -> bool
        ensures { result ≡ holds r.now self.now.members }
    {
        holds_all(self.list.as_slice(), r)
    }

    /// The greatest level outside a set that holds the members, in the time of all blocks and of the set, and of the leaves
    /// of those blocks whose greatest level an object of the set has.
    pub fn greatest_outside(&self, r: &ObjSet) -> Option<i128>
        requires { IsTrue (holds r.now self.now.members) }
        ensures { result ≡ greatest_outside self.now.levels r.now }
    {
        self.outsiders.greatest_outside(r)
    }

    /// The border of a monitor over a set that holds the members, in the time of `greatest_outside`.
    pub fn border(&self, r: &ObjSet) -> i128
        requires { IsTrue (holds r.now self.now.members) }
        ensures { result ≡ border self.now.levels self.now.members r.now }
    {
        let least = self.least_member();
        match self.greatest_outside(r) {
            None => least,
            Some(greatest) => least.min(greatest),
        }
    }

    /// The border of the coordinator over a set that holds the members, where the levels are its own factors.
    pub fn own_border(&self, epsilon: i128, r: &ObjSet) -> i128
        requires members { IsTrue (holds r.now self.now.members) }
        requires no_debt { pos 0 ≤ℤ epsilon }
        requires epsilon { epsilon ≤ℤ pos (2 ^ 100) }
        ensures { result ≡ own_border self.now.levels self.now.members epsilon r.now }
    {
        match self.greatest_outside(r) {
            None => self.least_member() + epsilon,
            Some(greatest) => greatest,
        }
    }
}
