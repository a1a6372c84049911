//! How a taken frame, and then what it brings about, changes what the coordinator keeps.

ghost use Rattle.std.specs.Prelude.{◌≡◌, ℕ, List, Some, length, slice_get, suc, IfOk};
ghost use Rattle.tk_base.specs.Settings.{Setup};
ghost use Rattle.std.specs.List.{list_all};
ghost use Rattle.tk_journal.specs.Readings.{is_calm as is_calm_at};
ghost use Rattle.tk_journal.specs.declared.noted.Noted.{Noted};
ghost use Rattle.tk_coord.specs.Checks.{AreNamed};
ghost use Rattle.tk_coord.specs.Keeping.{AreChanged, HasBegun, HasPlace, CanReply, assigned_at, first_peer, has_settled};
ghost use Rattle.tk_coord.specs.State.{Holds};
ghost use Rattle.tk_coord.specs.declared.peer.Peer.{Peer};
ghost use Rattle.tk_coord.specs.Steps.{NotesReply, NotesTold, told_at, values_in, open_after};

use crate::answer::Answer;
use crate::board::Board;
use crate::peer::{Peer, ask, new_peers};
use crate::reports::no_reports;
use crate::round::Round;
use crate::step::{Reply, Statement};
use std::alloc::Global;
use tk_alloc::Reported;
use tk_base::{Mon, NoMemory};
use tk_rows::MonChange;

/// What the coordinator keeps of the frames that passed.
#[derive(Drop)]
pub struct State {
    pub board: Board,
    pub peers: Vec<Peer>,
    pub round: Round,
    /// What each monitor last told to a round, monitors ascending.
    pub gathered: Vec<Reported>,
}

/// The peer of a monitor after a frame of it.
fn tell(peer: &mut Peer, statement: Statement) -> Option<Reported>
    ensures peer { peer.new ≡ told_at statement peer.old }
    ensures values { result ≡ values_in statement }
{
    match statement {
        Statement::Nothing => None,
        Statement::Report => {
            peer.answer = Some(Answer::Report);
            None
        }
        Statement::Settled(progress) => {
            peer.answer = Some(Answer::Settled);
            peer.progress = Some(progress);
            None
        }
        Statement::Values(report) => {
            peer.waits = false;
            Some(report)
        }
        Statement::LastValues => {
            peer.waits = false;
            None
        }
    }
}

/// Whether the round waits for a monitor after a frame.
fn still_waits(waiting: bool, statement: &Statement) -> bool
    ensures { result ≡ open_after statement.now waiting }
{
    match statement {
        Statement::Nothing => waiting,
        Statement::Report => waiting,
        Statement::Settled(_) => waiting,
        Statement::Values(_) => true,
        Statement::LastValues => false,
    }
}

/// Whether the current answer is a Settled.
fn is_settled(peer: &Peer) -> bool
    ensures { result ≡ has_settled peer.now }
{
    matches!(peer.answer, Some(Answer::Settled))
}

/// Whether every monitor's current answer is a Settled.
fn all_settled(peers: &[Peer]) -> bool
    ensures { result ≡ list_all has_settled peers.now }
{
    for peer in peers {
        if !is_settled(peer) {
            return false;
        }
    }
    true
}

/// Each monitor with changes was sent one more Assign.
fn assign(peers: &mut [Peer], changes: &[MonChange])
    requires { AreNamed (length peers.old) changes.now }
    ensures count { length peers.new ≡ length peers.old }
    ensures each { AreChanged (λ i l. assigned_at (suc i) changes.now l) peers.old peers.new }
{
    for change in changes {
        let peer = &mut peers[change.mon.0 as usize - 1];
        peer.assigns = peer.assigns.saturating_add(1);
        peer.answer = None;
    }
}

/// The peers of monitors to each of which one Assign was sent, and no report yet of each.
fn first_lists(alloc: Global, monitors: u32) -> Result<(Vec<Peer>, Vec<Reported>), NoMemory>
    ensures count { IfOk result (λ lists. length lists.0.items ≡ monitors) }
    ensures peers { IfOk result (λ lists. (i : ℕ) (l : Peer) → slice_get lists.0.items i ≡ Some l → l ≡ first_peer) }
    ensures reports { IfOk result (λ lists. length lists.1.items ≡ monitors) }
{
    let peers = new_peers(alloc, monitors)?;
    let gathered = no_reports(alloc, monitors)?;
    Ok((peers, gathered))
}

impl State {
    /// Before the first frame: each monitor was sent one Assign, and there was no round.
    pub fn begun(alloc: Global, board: Board, monitors: u32) -> Result<State, NoMemory>
        ensures { IfOk result (HasBegun monitors board) }
    {
        match first_lists(alloc, monitors) {
            Ok((peers, gathered)) => Ok(State {
                board,
                peers,
                round: Round::none(alloc),
                gathered,
            }),
            Err(fault) => {
                drop(board);
                Err(fault)
            }
        }
    }

    /// Whether no round is open and every monitor's current answer is a Settled.
    pub fn is_calm(&self) -> bool
        ensures { (s : Setup) (j : List Noted) → Holds s j self.now → result ≡ is_calm_at s j }
    {
        if self.round.waiting {
            return false;
        }
        all_settled(self.peers.as_slice())
    }

    /// A frame of a monitor was taken.
    pub fn take(&mut self, mon: Mon, statement: Statement)
        requires { HasPlace self.old mon.0 }
        ensures { NotesTold mon statement self.old self.new }
    {
        let place = mon.0 as usize - 1;
        self.round.waiting = still_waits(self.round.waiting, &statement);
        if let Some(report) = tell(&mut self.peers[place], statement) {
            self.gathered[place] = report;
        }
    }

    /// What it brings about was sent.
    pub fn reply(&mut self, reply: Reply)
        requires { CanReply self.old reply }
        ensures { NotesReply reply self.old self.new }
    {
        match reply {
            Reply::Nothing => {}
            Reply::Ask { round, opener } => {
                self.round = round;
                match opener {
                    None => ask(self.peers.as_mut_slice(), None),
                    Some(report) => {
                        let place = report.mon.0 as usize - 1;
                        ask(self.peers.as_mut_slice(), Some(place));
                        self.gathered[place] = report;
                    }
                }
            }
            Reply::Assign(reallocation) => {
                assign(self.peers.as_mut_slice(), reallocation.at.as_slice());
                self.board.replace(reallocation);
            }
        }
    }
}
