//! The ticks of one stream that are still to be taken back.

ghost use Rattle.std.specs.Prelude.{◌≡◌, ◌↔◌, true, false, ◌==◌, ◌<◌, ◌≤◌, ◌+◌, ◌^◌, ◌∷◌, [], pos, All, IfOk, IfSome, IsErr, OnOk, OnErr, flat_map, length, option_map, replicate, slice_get, unsigned_abs};
ghost use Rattle.tk_input.specs.Changes.{pair_of};
ghost use Rattle.tk_input.specs.Logs.{IsObject};
ghost use Rattle.tk_recent.specs.Kept.{fresh, leaving, noted, staying, sum_with, taken, ticked};

use crate::opposite::opposite;
use crate::sum::{TooGreat, sum_of};
use std::alloc::Global;
use std::collections::VecDeque;
use std::marker::Model;
use tk_base::NoMemory;
use tk_input::{Change, Changes};

/// What takes back each tick in the window that has ended, the sums of the one that runs, and how much of what leaves the window
/// was told.
#[derive(Drop)]
pub struct Recent {
    alloc: Global,
    width: u64,
    ended: VecDeque<Changes>,
    sums: Vec<i128>,
    leaves: Changes,
    told: usize,
}

impl Model for Recent {
    ghost use Rattle.std.specs.Prelude.{drop};
    ghost use Rattle.tk_recent.specs.Kept.{Kept};
    ghost use Rattle.tk_recent.specs.Fields.{AreKept};

    ghost Value = { Kept };

    ghost view = { λ r. record {
      width = r.width;
      ended = r.ended.items;
      sums = r.sums.items;
      back = drop r.told r.leaves;
    } };

    ghost invariant = { λ r. AreKept r.width r.ended.items r.sums.items r.leaves r.told };
}

/// Takes the oldest tick away, where there are more than the window has.
fn oldest(alloc: Global, ended: &mut VecDeque<Changes>, width: u64) -> Changes
    requires { length ended.old.items ≤ width + 1 }
    ensures stays { ended.new.items ≡ staying width ended.old.items }
    ensures leaves { result ≡ flat_map (λ tick. tick) (leaving width ended.old.items) }
{
    if ended.len() as u64 <= width {
        return Changes::new(alloc);
    }
    match ended.pop_front() {
        Some(first) => first,
        None => Changes::new(alloc),
    }
}

impl Recent {
    /// Of a stream of so many objects, whose window has so many ticks. Nothing was noted.
    pub fn new(alloc: Global, objects: u32, width: u64) -> Result<Recent, NoMemory>
        requires { objects ≤ 65536 }
        ensures { IfOk result (λ r. r ≡ fresh objects width) }
    {
        Ok(Recent {
            alloc,
            width,
            ended: VecDeque::new(alloc),
            sums: vec![in alloc; 0; objects as usize]?,
            leaves: Changes::new(alloc),
            told: 0,
        })
    }

    /// How many objects there are.
    pub fn objects(&self) -> u32
        ensures { result ≡ length self.now.sums }
    {
        self.sums.len() as u32
    }

    /// Whether a record of the tick that runs can be noted: whether the sum of its object in this tick has 127 bits.
    pub fn fits(&self, change: Change) -> bool
        requires { IsObject (length self.now.sums) change.obj.0 }
        ensures fits { result ≡ true → unsigned_abs (sum_with self.now.sums (pair_of change)) < 2 ^ 127 }
        ensures refused { result ≡ false → 2 ^ 127 ≤ unsigned_abs (sum_with self.now.sums (pair_of change)) }
    {
        let place = change.obj.0 as usize - 1;
        match sum_of(self.sums[place], change.by) {
            Ok(_) => true,
            Err(TooGreat) => false,
        }
    }

    /// A record of the tick that runs, in constant time and without memory. Refused where the sum of its object in this tick has no
    /// 127 bits. Where all values and records are within 2^100, as a watch has them, so great a sum takes 2^27 records of one tick or more
    /// whose opposites other streams give.
    pub fn note(&mut self, change: Change) -> Result<(), TooGreat>
        requires { IsObject (length self.old.sums) change.obj.0 }
        ensures ok { OnOk result (self.new ≡ noted self.old (pair_of change)) }
        ensures err { OnErr result (self.new ≡ self.old) }
        ensures refused { IsErr result ↔ (2 ^ 127 ≤ unsigned_abs (sum_with self.old.sums (pair_of change))) }
        ensures objects { length self.new.sums ≡ length self.old.sums }
    {
        let place = change.obj.0 as usize - 1;
        let sum = sum_of(self.sums[place], change.by)?;
        self.sums[place] = sum;
        Ok(())
    }

    /// The tick ends, and what it moves out of the window is to be taken back. Costs a look at each object. Want of memory leaves all
    /// as it was.
    pub fn tick(&mut self) -> Result<(), NoMemory>
        requires settled { self.old.back ≡ [] }
        ensures ok { OnOk result (self.new ≡ ticked self.old) }
        ensures err { OnErr result (self.new ≡ self.old) }
        ensures objects { length self.new.sums ≡ length self.old.sums }
    {
        let last = opposite(self.alloc, &self.sums)?;
        self.ended.push_back(last)?;
        self.sums.fill(0);
        self.leaves = oldest(self.alloc, &mut self.ended, self.width);
        self.told = 0;
        Ok(())
    }

    /// Whether nothing is to be taken back now.
    pub fn is_settled(&self) -> bool
        ensures { result ≡ (length self.now.back == 0) }
    {
        self.told == self.leaves.len()
    }

    /// The next change to be taken back, a record to be told as any other. It stays the next until it is told.
    pub fn next_back(&self) -> Option<Change>
        ensures value { option_map pair_of result ≡ slice_get self.now.back 0 }
        ensures object { IfSome result (λ c. IsObject (length self.now.sums) c.obj.0) }
    {
        if self.told < self.leaves.len() {
            Some(self.leaves.at(self.told))
        } else {
            None
        }
    }

    /// The next change to be taken back was told; where there is none, nothing happens.
    pub fn take_back(&mut self)
        ensures { self.new ≡ taken self.old }
    {
        if self.told < self.leaves.len() {
            self.told += 1;
        }
    }
}
