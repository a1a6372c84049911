//! What a monitor reads to find what is broken: levels by rank, factors and members.

ghost use Rattle.std.specs.Prelude.{◌≡◌, ◌+◌, ◌-◌, ◌^◌, ◌<◌, ◌≤◌, pos, ◌+ℤ◌, unsigned_abs, IsTrue, length, replicate, All, IfOk, nat_lt, []};
ghost use Rattle.tk_border.specs.Levels.{level_at, least_member as least_member_of, greatest_outside as greatest_outside_of, broken, border as border_of, holds};
ghost use Rattle.tk_trail.specs.Slack.{difference};
ghost use Rattle.tk_monitor.specs.Board.{IsOneOf, shifted, values_in};

mod assign;

use crate::factors::Factors;
use std::alloc::Global;
use std::marker::Model;
use tk_base::{NoMemory, Obj, ObjSet, Pairs, PairsBuilder};
use tk_rank::Rank;

/// The level of each object at one monitor, its factor, and the members. A value is a level without its factor, so
/// that a change writes the level alone.
/// Before the first Assign there are no members; the rank then has object 1 for one, and nobody asks it.
#[derive(Debug, Drop)]
pub(crate) struct Board {
    rank: Rank,
    factors: Factors,
    members: ObjSet,
}

impl Model for Board {
    ghost use Rattle.std.specs.Prelude.{◌≡◌, ◌<◌, length};
    ghost use Rattle.tk_monitor.specs.Board.{BoardView, IsBoard, board_of};

    ghost Value = { BoardView };

    ghost view = { λ b. board_of b.rank.levels b.factors b.members };

    ghost invariant = { λ b.
        IsBoard (board_of b.rank.levels b.factors b.members)
        × (0 < length b.members → b.rank.members ≡ b.members) };
}

impl Board {
    /// A board of zeros with no members.
    pub fn new(alloc: Global, objects: u32) -> Result<Board, NoMemory>
        requires some { 1 ≤ objects }
        requires few { objects ≤ 65536 }
        ensures { IfOk result (λ b. b ≡ record {
          values = replicate objects (pos 0);
          levels = replicate objects (pos 0);
          members = [];
        }) }
    {
        let zeros = vec![in alloc; 0; objects as usize]?;
        let mut first = Vec::new(alloc);
        first.push(Obj(1))?;
        let rank = Rank::new(alloc, zeros.as_slice(), &ObjSet::new(first).unwrap())?;
        Ok(Board {
            rank,
            factors: Factors::new(alloc),
            members: ObjSet::new(Vec::new(alloc)).unwrap(),
        })
    }

    /// The present members.
    pub fn members(&self) -> &ObjSet
        ensures value { result.now ≡ self.now.members }
        ensures within { All (λ o. o ≤ length self.now.levels) self.now.members }
    {
        &self.members
    }

    /// The level of an object: its value and its factor.
    pub fn level(&self, o: Obj) -> i128
        requires { IsOneOf (length self.now.levels) o.0 }
        ensures { result ≡ level_at self.now.levels o.0 }
    {
        self.rank.level(o)
    }

    /// The value of an object, in the time of a logarithm of the factors.
    pub fn value(&self, o: Obj) -> i128
        requires { IsOneOf (length self.now.levels) o.0 }
        ensures { result ≡ level_at self.now.values o.0 }
    {
        self.rank.level(o) - self.factors.of(o)
    }

    /// Moves value and level of an object.
    pub fn shift(&mut self, o: Obj, by: i128)
        requires object { IsOneOf (length self.old.levels) o.0 }
        requires size { unsigned_abs (level_at self.old.values o.0 +ℤ by) ≤ 2 ^ 100 }
        ensures { self.new ≡ shifted self.old (o.0, by) }
    {
        self.rank.shift(o, by);
    }

    /// The values of the objects that are asked for.
    pub fn values_over(&self, alloc: Global, asked: &ObjSet) -> Result<Pairs, NoMemory>
        requires { All (λ o. o ≤ length self.now.levels) asked.now }
        ensures { IfOk result (λ p. p ≡ values_in self.now.values asked.now) }
    {
        let mut list = PairsBuilder::with_capacity(alloc, asked.len())?;
        for i in 0..asked.len() {
            let o = asked.at(i);
            list.push(o, self.value(o))?;
        }
        Ok(list.finish().unwrap())
    }

    /// The broken outsiders, in the time of `Rank::above`.
    pub fn failed(&self, alloc: Global) -> Result<ObjSet, NoMemory>
        requires { 0 < length self.now.members }
        ensures { IfOk result (λ s. s ≡ broken self.now.levels self.now.members) }
    {
        self.rank.above(alloc, self.rank.least_member())
    }

    /// The border over a set that holds the members, in the time of `Rank::border`.
    pub fn border(&self, asked: &ObjSet) -> i128
        requires some { 0 < length self.now.members }
        requires held { IsTrue (holds asked.now self.now.members) }
        ensures { result ≡ border_of self.now.levels self.now.members asked.now }
    {
        self.rank.border(asked)
    }

    /// The least member level minus the greatest level of an outsider, read at two roots.
    pub fn slack(&self) -> Option<i128>
        ensures { result ≡ difference (least_member_of self.now.levels self.now.members)
            (greatest_outside_of self.now.levels self.now.members) }
    {
        if self.members.len() == 0 {
            return None;
        }
        let greatest = self.rank.greatest_outsider()?;
        Some(self.rank.least_member() - greatest)
    }

    /// Whether some outsider is above the least member.
    pub fn is_broken(&self) -> bool
        ensures { result ≡ nat_lt 0 (length (broken self.now.levels self.now.members)) }
    {
        self.members.len() > 0 && self.rank.is_broken()
    }

    /// As `Rank::touch`.
    pub fn touch(&self, o: Obj) -> u64
        requires { IsOneOf (length self.now.levels) o.0 }
    {
        self.rank.touch(o)
    }
}
