// An Assign at the board, with the answer to it.
ghost use Rattle.std.specs.Prelude.{◌≡◌, ℕ, ◌^◌, ◌<◌, ◌≤◌, unsigned_abs, length, All, IfOk, OnOk, OnErr};
ghost use Rattle.tk_border.specs.Levels.{AreMembers};
ghost use Rattle.tk_monitor.specs.Board.{AreFactors, AreLimited, assigned, values_under};
ghost use Rattle.tk_monitor.specs.Factors.{HasFactor};
ghost use Rattle.tk_monitor.specs.Kept.{answer_on};

use crate::board::Board;
use crate::factors::Factors;
use crate::messages::{report, settled};
use std::alloc::Global;
use std::mem;
use tk_base::{NoMemory, ObjSet, Pairs};
use tk_frames::KeptFrame;
use tk_rank::Rank;

impl Board {
    /// Takes members and factors, unless there is no memory for the factors or for the answer.
    pub fn assign(
        &mut self,
        alloc: Global,
        seq: u64,
        members: ObjSet,
        changes: &Pairs,
        next: &[u32],
        ended: bool,
    ) -> Result<KeptFrame, NoMemory>
        requires members { AreMembers (length self.old.levels) members }
        requires factors { AreFactors (length self.old.levels) changes.now }
        ensures answer { IfOk result (λ k. k ≡ answer_on self.new seq next.now ended) }
        ensures ok { OnOk result (self.new ≡ record self.old {
          levels = assigned self.old.values self.old.levels changes.now;
          members = members;
        }) }
        ensures err { OnErr result (self.new ≡ self.old) }
    {
        // The factors are kept from here on, so that neither the Assign nor its undoing takes memory.
        let before = self.factors.keep_over(alloc, changes)?;
        set_factors(&mut self.rank, &mut self.factors, changes);
        seat(&mut self.rank, &members);
        let old = mem::replace(&mut self.members, members);
        match answer(alloc, self, seq, next, ended) {
            Ok(answer) => Ok(answer),
            Err(NoMemory) => {
                set_factors(&mut self.rank, &mut self.factors, &before);
                seat(&mut self.rank, &old);
                self.members = old;
                Err(NoMemory)
            }
        }
    }
}

/// Sets factors that are kept, and moves each level by what its factor changes.
fn set_factors(rank: &mut Rank, factors: &mut Factors, changes: &Pairs)
    requires changes { AreFactors (length rank.old.levels) changes.now }
    requires kept { All (λ c. HasFactor factors.old c.0) changes.now }
    requires limits { AreLimited (values_under rank.old.levels factors.old) rank.old.levels }
    ensures levels { rank.new.levels
        ≡ assigned (values_under rank.old.levels factors.old) rank.old.levels changes.now }
    ensures members { rank.new.members ≡ rank.old.members }
    ensures limits { AreLimited (values_under rank.new.levels factors.new) rank.new.levels }
    ensures values { values_under rank.new.levels factors.new ≡ values_under rank.old.levels factors.old }
    ensures kept { (o : ℕ) → HasFactor factors.old o → HasFactor factors.new o }
{
    for i in 0..changes.len() {
        let (o, factor) = changes.at(i);
        let before = factors.replace(o, factor);
        rank.shift(o, factor - before);
    }
}

/// The rank takes the members, if there are any.
fn seat(rank: &mut Rank, members: &ObjSet)
    requires { All (λ o. o ≤ length rank.old.levels) members.now }
    ensures levels { rank.new.levels ≡ rank.old.levels }
    ensures members { 0 < length members.now → rank.new.members ≡ members.now }
{
    if members.len() > 0 {
        rank.set_members(members);
    }
}

fn answer(
    alloc: Global,
    board: &Board,
    seq: u64,
    next: &[u32],
    ended: bool,
) -> Result<KeptFrame, NoMemory>
    ensures { IfOk result (λ k. k ≡ answer_on board.now seq next.now ended) }
{
    if board.is_broken() {
        return report(alloc, board, seq);
    }
    settled(alloc, next, seq, ended)
}
