//! The monitor: how it counts a change, and what it shows of its levels, its places and its trail.

ghost use Rattle.std.specs.Prelude.{◌≡◌, ◌<◌, length, IfOk, Some, slice_get};
ghost use Rattle.tk_trail.specs.Readings.{places_at, at_ends, level_of, is_broken, seq_of, is_stopped, sent_by};
ghost use Rattle.tk_trail.specs.Legal.{IsLegal};
ghost use Rattle.tk_trail.specs.Slack.{slack_of};
ghost use Rattle.tk_monitor.specs.Board.{IsOneOf};
ghost use Rattle.tk_monitor.specs.Monitored.{IsFeederOf, Raises};

mod check;
mod grow;
mod make;
mod take;

use crate::board::Board;
use crate::outcome::Raised;
use crate::parts::next_change;
use crate::phase::Phase;
use crate::trail::Trail;
use std::marker::Model;
use tk_base::{Feeder, Mon, NoMemory, Obj, Places, Settings};
use tk_frames::Frame;
use tk_input::Part;
use tk_trail::Entry;

/// One monitor, which contracts see as the settings of its run, what it was made of, and its trail.
#[derive(Drop)]
pub struct Monitor {
    settings: Settings,
    number: Mon,
    parts: Vec<Part>,
    from: Places,
    next: Vec<u32>,
    board: Board,
    trail: Trail,
    phase: Phase,
}

impl Model for Monitor {
    ghost use Rattle.tk_monitor.specs.Monitored.{MonitorView};
    ghost use Rattle.tk_monitor.specs.Kept.{IsKept};

    ghost Value = { MonitorView };

    ghost view = { λ m. record {
      settings = m.settings;
      setup = record { number = m.number.0; objects = m.settings.objects; parts = m.parts.items; from = m.from };
      trail = m.trail.entries;
    } };

    ghost invariant = { λ m.
        IsKept
        (record { number = m.number.0; objects = m.settings.objects; parts = m.parts.items; from = m.from })
        m.trail
        m.board
        m.next.items
        m.phase };
}

impl Monitor {
    /// Counts the next change of a feeder: one update of its level, which costs a leaf and at most its block and
    /// a logarithm of the blocks, and no memory.
    pub fn raise(&mut self, f: Feeder) -> Raised
        requires { IsFeederOf self.old.setup f.0 }
        ensures answer { Raises self.old f result self.new }
        ensures legal { IsLegal self.new.setup self.new.trail }
    {
        let i = (f.0 - 1) as usize;
        match next_change(self.parts.as_slice(), self.next.as_slice(), i) {
            None => Raised::Ended,
            Some(change) => {
                self.next[i] += 1;
                self.board.shift(change.obj, change.by);
                self.trail.raised(f);
                Raised::Done {
                    broken: self.board.is_broken(),
                }
            }
        }
    }

    /// A look at the leaf that the next change of a feeder moves, of use for no answer: where many monitors raise in turn,
    /// looks at all of them first wait for memory side by side.
    pub fn touch(&self, f: Feeder) -> u64
        requires { IsFeederOf self.now.setup f.0 }
    {
        let i = (f.0 - 1) as usize;
        match next_change(self.parts.as_slice(), self.next.as_slice(), i) {
            None => 0,
            Some(change) => self.board.touch(change.obj),
        }
    }

    /// Whether some outsider's level is above the least level of a member, read at two roots.
    pub fn broken(&self) -> bool
        ensures { result ≡ is_broken self.now.setup self.now.trail }
    {
        self.board.is_broken()
    }

    /// The least member level minus the greatest level of an outsider, read at two roots. There is none
    /// before the first Assign, or where every object is a member.
    pub fn slack(&self) -> Option<i128>
        ensures { result ≡ slack_of self.now.setup self.now.trail }
    {
        self.board.slack()
    }

    /// The value of an object plus its factor, in constant time.
    pub fn level(&self, o: Obj) -> i128
        requires { IsOneOf self.now.setup.objects o.0 }
        ensures { result ≡ level_of self.now.setup self.now.trail o.0 }
    {
        self.board.level(o)
    }

    /// How many changes of each feeder were raised, those before the start included.
    pub fn places(&self) -> Result<Places, NoMemory>
        ensures { IfOk result (λ p. p ≡ places_at self.now.setup self.now.trail) }
    {
        let list = Vec::from_slice(self.trail.alloc(), self.next.as_slice())?;
        Ok(Places::new(list))
    }

    /// The number of Assigns taken.
    pub fn seq(&self) -> u64
        ensures { result ≡ seq_of self.now.trail }
    {
        self.phase.seq
    }

    /// Whether all parts are at their ends.
    pub fn ended(&self) -> bool
        ensures { result ≡ at_ends self.now.setup self.now.trail }
    {
        self.trail.raises() == 0
    }

    /// Whether Stop was taken.
    pub fn stopped(&self) -> bool
        ensures { result ≡ is_stopped self.now.trail }
    {
        self.phase.stopped
    }

    /// The settings that it was made with.
    pub fn settings(&self) -> &Settings
        ensures value { result.now ≡ self.now.settings }
        ensures objects { self.now.setup.objects ≡ self.now.settings.objects }
    {
        &self.settings
    }

    /// The number that it was made with.
    pub fn number(&self) -> Mon
        ensures { result.0 ≡ self.now.setup.number }
    {
        self.number
    }

    /// What it did so far, in order.
    pub fn trail(&self) -> &[Entry]
        ensures value { result.now ≡ self.now.trail }
        ensures legal { IsLegal self.now.setup self.now.trail }
    {
        self.trail.entries()
    }

    /// The number of frames sent, of every kind.
    pub fn sent(&self) -> usize
        ensures { result ≡ length (sent_by self.now.trail) }
    {
        self.trail.sent_len()
    }

    /// The frame sent at a place from 0, in constant time.
    pub fn sent_at(&self, i: usize) -> &Frame
        requires { i < length (sent_by self.now.trail) }
        ensures { slice_get (sent_by self.now.trail) i ≡ Some result.now }
    {
        self.trail.sent_at(i)
    }
}
