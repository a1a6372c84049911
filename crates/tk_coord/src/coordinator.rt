//! The coordinator and what it shows: its settings, members, factors, journal and turns.

ghost use Rattle.std.specs.Prelude.{◌≡◌, not, ◌<◌, ◌≤◌, length, IfOk, Some, slice_get};
ghost use Rattle.std.specs.List.{All};
ghost use Rattle.tk_frames.specs.declared.frame.Frame.{Frame};
ghost use Rattle.tk_journal.specs.Entries.{IsEntryOf};
ghost use Rattle.tk_journal.specs.Legal.{opened};
ghost use Rattle.tk_journal.specs.Links.{frames_to};
ghost use Rattle.tk_journal.specs.Publishing.{publications};
ghost use Rattle.tk_journal.specs.Readings.{factor, in_force, is_open, is_stopped, members_at, own};
ghost use Rattle.tk_journal.specs.Kinds.{turns_of};
ghost use Rattle.tk_journal.specs.Turns.{rounds as rounds_at};
ghost use Rattle.tk_journal.specs.declared.noted.Noted.{Noted};
ghost use Rattle.tk_coord.specs.Coordinator.{IsJournal};
ghost use Rattle.tk_coord.specs.Grounds.{IsGrounded};

mod make;
mod retune;
mod room;
mod take;

use crate::journal::Journal;
use crate::outcomes::Grounds;
use crate::phase::Phase;
use crate::state::State;
use crate::turns::Turns;
use std::marker::Model;
use tk_base::{Mon, NoMemory, Obj, ObjSet, Settings};
use tk_frames::Frame;
use tk_journal::{Noted, Publication, Turn};

/// The node that keeps the members, the table of factors and the journal.
#[derive(Drop)]
pub struct Coordinator {
    settings: Settings,
    state: State,
    phase: Phase,
    journal: Journal,
    turns: Turns,
}

impl Model for Coordinator {
    ghost use Rattle.std.specs.Prelude.{◌≡◌};
    ghost use Rattle.tk_coord.specs.Coordinator.{CoordinatorView};
    ghost use Rattle.tk_coord.specs.Kept.{IsKept};

    ghost Value = { CoordinatorView };

    ghost view = { λ c. record {
      settings = c.settings;
      journal = c.journal.entries;
    } };

    ghost invariant = { λ c. IsKept c.settings c.journal.entries c.state c.phase c.turns.list
        × (c.journal.monitors ≡ c.settings.monitors) };
}

impl Coordinator {
    /// How many rounds were opened, unless they are past counting.
    fn rounds(&self) -> Result<u64, NoMemory>
        ensures { IfOk result (λ n. n ≡ rounds_at self.now.settings self.now.journal) }
    {
        self.turns.rounds()
    }

    /// What the rounds are dealt over.
    fn grounds(&self, rounds: u64) -> Grounds
        requires { rounds ≡ rounds_at self.now.settings self.now.journal }
        ensures { IsGrounded self.now.settings self.now.journal result }
    {
        Grounds {
            alloc: self.journal.alloc(),
            phase: self.phase,
            rounds,
            board: &self.state.board,
            peers: self.state.peers.as_slice(),
        }
    }

    /// What it was made with.
    pub fn settings(&self) -> &Settings
        ensures { result.now ≡ self.now.settings }
    {
        &self.settings
    }

    /// The k in force: that of the last retune whose round is over.
    pub fn k(&self) -> u32
        ensures { result ≡ (in_force self.now.settings self.now.journal).k }
    {
        self.phase.settings.k()
    }

    /// The epsilon in force.
    pub fn epsilon(&self) -> i128
        ensures { result ≡ (in_force self.now.settings self.now.journal).epsilon }
    {
        self.phase.settings.epsilon()
    }

    /// The present members.
    pub fn members(&self) -> &ObjSet
        ensures { result.now ≡ members_at self.now.journal }
    {
        self.state.board.members()
    }

    /// Whether no round is open.
    pub fn idle(&self) -> bool
        ensures { result ≡ not (is_open self.now.settings self.now.journal) }
    {
        !self.state.round.waiting
    }

    /// Whether the final set was published, and Stop was sent.
    pub fn finished(&self) -> bool
        ensures { result ≡ is_stopped self.now.journal }
    {
        self.phase.stopped
    }

    /// What it did so far.
    pub fn journal(&self) -> &[Noted]
        ensures value { result.now ≡ self.now.journal }
        ensures legal { IsJournal self.now.settings self.now.journal }
        ensures entries { All (IsEntryOf self.now.settings.monitors self.now.settings.objects) self.now.journal }
    {
        self.journal.entries()
    }

    /// The turns of the journal, in order: one for each frame taken and each retune.
    pub fn turns(&self) -> &[Turn]
        ensures { result.now ≡ turns_of self.now.settings self.now.journal }
    {
        self.turns.as_slice()
    }

    /// How many sets were published.
    pub fn published(&self) -> usize
        ensures { result ≡ length (publications self.now.journal) }
    {
        self.journal.published()
    }

    /// The publication at a place from 0.
    pub fn publication(&self, i: usize) -> &Publication
        requires { i < length (publications self.now.journal) }
        ensures { slice_get (publications self.now.journal) i ≡ Some result.now }
    {
        self.journal.publication(i)
    }

    /// How many frames of every kind were sent to a monitor.
    pub fn sent(&self, mon: Mon) -> usize
        requires some_monitor { 0 < mon.0 }
        requires monitor { mon.0 ≤ self.now.settings.monitors }
        ensures { result ≡ length (frames_to mon.0 self.now.journal) }
    {
        self.journal.sent(mon)
    }

    /// The frame at a place from 0 among those sent to a monitor.
    pub fn sent_at(&self, mon: Mon, i: usize) -> &Frame
        requires some_monitor { 0 < mon.0 }
        requires monitor { mon.0 ≤ self.now.settings.monitors }
        requires within { i < length (frames_to mon.0 self.now.journal) }
        ensures { slice_get (frames_to mon.0 self.now.journal) i ≡ Some result.now }
    {
        self.journal.sent_at(mon, i)
    }

    /// The coordinator's own factor of an object.
    pub fn own(&self, o: Obj) -> i128
        requires some { 0 < o.0 }
        requires within { o.0 ≤ self.now.settings.objects }
        ensures { result ≡ own self.now.settings self.now.journal o.0 }
    {
        self.state.board.table().own(o)
    }

    /// The factor of an object at a monitor.
    pub fn factor(&self, mon: Mon, o: Obj) -> i128
        requires some { 0 < o.0 }
        requires within { o.0 ≤ self.now.settings.objects }
        requires some_monitor { 0 < mon.0 }
        requires monitor { mon.0 ≤ self.now.settings.monitors }
        ensures { result ≡ factor mon.0 self.now.journal o.0 }
    {
        self.state.board.table().at(mon, o)
    }
}
