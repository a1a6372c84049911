ghost use Rattle.std.specs.Prelude.{◌≡◌, ◌||◌, nat_lt};
ghost use Rattle.tk_wire.specs.Meanings.{counts_taken, counts_given};
ghost use Rattle.tk_net.specs.Counting.{no_counts};

use std::marker::Model;
use tk_wire::{Gave, Took};

/// The three counts of a link.
#[derive(Drop)]
pub(crate) struct LinkCounts {
    faults: u64,
    ends: u64,
    taken: u64,
}

impl Model for LinkCounts {
    ghost use Rattle.tk_wire.specs.Meanings.{Counts};

    ghost Value = { Counts };

    ghost view = { λ c. record { faults = c.faults; ends = c.ends; taken = c.taken } };
}

impl LinkCounts {
    pub(crate) fn new() -> LinkCounts
        ensures { result ≡ no_counts }
    {
        LinkCounts {
            faults: 0,
            ends: 0,
            taken: 0,
        }
    }

    pub(crate) fn faults(&self) -> u64
        ensures { result ≡ self.now.faults }
    {
        self.faults
    }

    pub(crate) fn ends(&self) -> u64
        ensures { result ≡ self.now.ends }
    {
        self.ends
    }

    pub(crate) fn taken(&self) -> u64
        ensures { result ≡ self.now.taken }
    {
        self.taken
    }

    /// Whether a call failed or a take found the end.
    pub(crate) fn is_broken(&self) -> bool
        ensures { result ≡ (nat_lt 0 self.now.faults || nat_lt 0 self.now.ends) }
    {
        self.faults > 0 || self.ends > 0
    }

    /// Counts a take.
    pub(crate) fn note_take(&mut self, took: Took)
        ensures { self.new ≡ counts_taken took self.old }
    {
        match took {
            Took::Bytes(count) => self.taken = self.taken.saturating_add(count as u64),
            Took::NotYet => {}
            Took::End => self.ends = self.ends.saturating_add(1),
            Took::Failed => self.faults = self.faults.saturating_add(1),
        }
    }

    /// Counts a give.
    pub(crate) fn note_give(&mut self, gave: Gave)
        ensures { self.new ≡ counts_given gave self.old }
    {
        match gave {
            Gave::Bytes(_) => {}
            Gave::NotYet => {}
            Gave::Failed => self.faults = self.faults.saturating_add(1),
        }
    }
}
