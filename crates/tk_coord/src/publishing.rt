//! How a turn ends in which all have settled: whether a set is due, its publication, and Stop behind the final one.

ghost use Rattle.std.specs.Prelude.{◌≡◌, ◌≢◌, ◌+◌, ◌<◌, ℕ, true, false, Some, None, IfOk, IfSome, IfNone, slice_get, length, map};
ghost use Rattle.std.specs.Bool.{OnTrue, OnFalse};
ghost use Rattle.std.specs.List.{All};
ghost use Rattle.tk_journal.specs.Publishing.{differs};
ghost use Rattle.tk_journal.specs.Readings.{is_stopped};
ghost use Rattle.tk_journal.specs.Entries.{IsEntryOf};
ghost use Rattle.tk_coord.specs.Checks.{AreWithin};
ghost use Rattle.tk_coord.specs.Closing.{are_last, closing_by, said_at, said_in, settled_by};
ghost use Rattle.tk_coord.specs.Keeping.{AreOthers, HasOther};
ghost use Rattle.tk_coord.specs.declared.peer.Peer.{Peer};

use crate::answer::{Answer, Progress};
use crate::entries::push_stops;
use crate::peer::Peer;
use std::alloc::Global;
use tk_base::{Cut, NoMemory, ObjSet, Settings};
use tk_journal::{KeptPublication, Noted, Publication};

/// How far a monitor is, where its current answer is Settled.
fn settled(peer: &Peer) -> Option<&Progress>
    ensures some { IfSome result (λ p. settled_by (Some peer.now) ≡ Some p.now) }
    ensures none { IfNone result (settled_by (Some peer.now) ≡ None) }
{
    match peer.answer {
        Some(Answer::Settled) => peer.progress.as_ref(),
        _ => None,
    }
}

/// What all monitors say, where the one at this place says this now.
#[derive(Clone, Copy)]
pub struct Answers<'a> {
    pub peers: &'a [Peer],
    pub place: usize,
    pub here: &'a Progress,
}

/// What the monitor at another place says, where all have settled.
fn said<'a>(answers: Answers<'a>, other: usize) -> &'a Progress
    requires { other < length answers.peers.now }
    ensures { result.now ≡ said_at answers.entry.peers.now answers.entry.place answers.entry.here.now (other + 1) }
{
    if other == answers.place {
        return answers.here;
    }
    settled(&answers.peers[other]).unwrap_or(answers.here)
}

/// Whether every monitor but the one at this place has Settled as its current answer.
pub fn others_settled(peers: &[Peer], place: usize) -> bool
    ensures all { OnTrue result (AreOthers (λ l. settled_by (Some l) ≢ None) peers.now place) }
    ensures one { OnFalse result (HasOther (λ l. settled_by (Some l) ≡ None) peers.now place) }
{
    for other in 0..peers.len() {
        if other != place && settled(&peers[other]).is_none() {
            return false;
        }
    }
    true
}

/// Whether a set was published with other members, k or epsilon than these.
pub fn is_other(last: &Publication, settings: &Settings, members: &ObjSet) -> bool
    ensures { result ≡ differs settings.now members.now (Some last.now) }
{
    !(last.members == *members && last.k == settings.k() && last.epsilon == settings.epsilon())
}

/// Whether all parts of all monitors are at their ends.
fn all_last(answers: Answers) -> bool
    ensures { result ≡ are_last (said_in answers.entry) }
{
    for other in 0..answers.peers.len() {
        if !said(answers, other).last {
            return false;
        }
    }
    true
}

/// The places of all monitors.
fn cut_of(alloc: Global, answers: Answers) -> Result<Cut, NoMemory>
    ensures { IfOk result (λ c. c ≡ map (λ p. p.places) (said_in answers.entry)) }
{
    let mut list = Vec::with_capacity(alloc, answers.peers.len())?;
    for other in 0..answers.peers.len() {
        list.push(said(answers, other).places.try_clone()?)?;
    }
    Ok(Cut::new(list))
}

/// What is published, with copies of the members and of the places of all monitors.
fn published(
    alloc: Global,
    answers: Answers,
    settings: &Settings,
    members: &ObjSet,
    last: bool,
    number: u64,
) -> Result<KeptPublication, NoMemory>
    ensures { IfOk result (λ p. p ≡ record {
      number = number;
      last = last;
      k = settings.now.k;
      epsilon = settings.now.epsilon;
      members = members.now;
      cut = map (λ said. said.places) (said_in answers.entry);
    }) }
{
    let publication = Publication {
        number,
        last,
        k: settings.k(),
        epsilon: settings.epsilon(),
        members: members.try_clone()?,
        cut: cut_of(alloc, answers)?,
    };
    match KeptPublication::new(alloc, publication) {
        Ok(kept) => Ok(kept),
        Err(publication) => {
            drop(publication);
            Err(NoMemory)
        }
    }
}

/// The entries that end a turn in which every monitor has settled, and whether Stop is among them. The
/// settings hold the k and epsilon in force; `news` is whether they or the members differ from the last set.
pub fn publishing(
    alloc: Global,
    answers: Answers,
    settings: &Settings,
    members: &ObjSet,
    news: bool,
    number: u64,
) -> Result<(Vec<Noted>, bool), NoMemory>
    requires some { 0 < settings.now.monitors }
    ensures value { IfOk result (λ r. r.0.items ≡ closing_by settings.now members.now (said_in answers.entry) news number) }
    ensures ends { IfOk result (λ r. is_stopped r.0.items ≡ r.1) }
    ensures entries { (n : ℕ) → AreWithin n members.now → IfOk result (λ r. All (IsEntryOf settings.now.monitors n) r.0.items) }
{
    let last = all_last(answers);
    if !news && !last {
        return Ok((Vec::new(alloc), false));
    }
    let kept = published(alloc, answers, settings, members, last, number)?;
    let mut entries = Vec::new(alloc);
    entries.push(Noted::Published(kept))?;
    if last {
        push_stops(alloc, &mut entries, settings.monitors())?;
    }
    Ok((entries, last))
}
