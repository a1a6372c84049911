// A coordinator driven over its recorded journal.
ghost use Rattle.std.specs.Prelude.{◌≡◌, ◌≢◌, ◌↔◌, IsTrue, IfOk, IfErr, OnOk, Some, slice_get};
ghost use Rattle.tk_base.specs.History.{last_of};
ghost use Rattle.tk_journal.specs.Legal.{IsLegal, opened, start};
ghost use Rattle.tk_journal.specs.Publishing.{publications};
ghost use Rattle.tk_journal.specs.declared.noted.Noted.TheVariants as n;
ghost use Rattle.tk_journal.specs.declared.refusal.CoordRefusal.TheVariants.{NoMemory as Memory};
ghost use Rattle.tk_journal.specs.declared.refusal.RetuneRefusal.TheVariants.{NoMemory as NoRoom};
ghost use Rattle.tk_verify.specs.Driving.{Halts, JournalLeads, LeadsAt};
ghost use Rattle.tk_verify.specs.Recorded.{is_final};

use crate::halt::Halt;
use std::alloc::Global;
use tk_base::{Mon, NoMemory, Settings};
use tk_coord::{CoordRefusal, Coordinator, RetuneRefusal};
use tk_frames::Frame;
use tk_journal::Noted;
use tk_story::is_same_noted;

/// Passes on want of memory alone.
fn unless_memory(refusal: CoordRefusal) -> Result<(), NoMemory>
    ensures { OnOk result (refusal ≢ Memory) }
{
    match refusal {
        CoordRefusal::NoMemory => Err(NoMemory),
        _ => Ok(()),
    }
}

/// Passes on want of memory alone.
fn unless_room(refusal: RetuneRefusal) -> Result<(), NoMemory>
    ensures { OnOk result (refusal ≢ NoRoom) }
{
    match refusal {
        RetuneRefusal::NoMemory => Err(NoMemory),
        _ => Ok(()),
    }
}

/// Hands a frame of a monitor in, if there is such a monitor; the coordinator takes or refuses it.
fn take(coordinator: &mut Coordinator, mon: Mon, frame: &Frame) -> Result<(), NoMemory>
    requires { IsLegal (start coordinator.old.settings) coordinator.old.journal }
    ensures settings { coordinator.new.settings ≡ coordinator.old.settings }
    ensures leads { OnOk result (JournalLeads coordinator.old.settings
        coordinator.old.journal (n.Got mon frame.now) coordinator.new.journal) }
{
    if mon.0 == 0 || mon.0 > coordinator.settings().monitors() {
        return Ok(());
    }
    let frame = frame.try_clone()?;
    match coordinator.take(mon, frame) {
        Ok(()) => Ok(()),
        Err((refusal, frame)) => {
            drop(frame);
            unless_memory(refusal)
        }
    }
}

/// Asks for another k and epsilon, if epsilon is one; the coordinator takes or refuses them.
fn retune(coordinator: &mut Coordinator, k: u32, epsilon: i128) -> Result<(), NoMemory>
    requires { IsLegal (start coordinator.old.settings) coordinator.old.journal }
    ensures settings { coordinator.new.settings ≡ coordinator.old.settings }
    ensures leads { OnOk result (JournalLeads coordinator.old.settings
        coordinator.old.journal (n.Tuned k epsilon) coordinator.new.journal) }
{
    if epsilon < 0 {
        return Ok(());
    }
    match coordinator.retune(k as u64, epsilon.unsigned_abs()) {
        Ok(()) => Ok(()),
        Err(refusal) => unless_room(refusal),
    }
}

/// Hands an entry in that stands behind all that the coordinator did: only frames taken and retunes begin a turn.
fn hand_in(coordinator: &mut Coordinator, noted: &Noted) -> Result<(), NoMemory>
    requires { IsLegal (start coordinator.old.settings) coordinator.old.journal }
    ensures settings { coordinator.new.settings ≡ coordinator.old.settings }
    ensures leads { OnOk result (JournalLeads coordinator.old.settings
        coordinator.old.journal noted.now coordinator.new.journal) }
{
    match noted {
        Noted::Got(mon, frame) => take(coordinator, *mon, frame.get()),
        Noted::Tuned(k, epsilon) => retune(coordinator, *k, epsilon.get()),
        Noted::Sent(_, _) => Ok(()),
        Noted::Published(_) => Ok(()),
    }
}

/// Has the coordinator do what stands at a place behind what was seen, unless it did so much already.
fn reach(coordinator: &mut Coordinator, place: usize, noted: &Noted) -> Result<(), NoMemory>
    requires { IsLegal (start coordinator.old.settings) coordinator.old.journal }
    ensures settings { coordinator.new.settings ≡ coordinator.old.settings }
    ensures leads { LeadsAt (IsLegal (start coordinator.old.settings)) place noted.now
        coordinator.old.journal coordinator.new.journal result }
{
    if place < coordinator.journal().len() {
        return Ok(());
    }
    hand_in(coordinator, noted)
}

/// Whether the coordinator did this at a place.
fn did(coordinator: &Coordinator, place: usize, noted: &Noted) -> bool
    ensures { IsTrue result ↔ (slice_get coordinator.now.journal place ≡ Some noted.now) }
{
    match coordinator.journal().get(place) {
        Some(done) => is_same_noted(done, noted),
        None => false,
    }
}

/// Drives a fresh coordinator over a journal.
fn drive(coordinator: &mut Coordinator, journal: &[Noted]) -> Result<(), Halt>
    requires { coordinator.old.journal ≡ opened (start coordinator.old.settings) }
    ensures settings { coordinator.new.settings ≡ coordinator.old.settings }
    ensures journal { OnOk result (coordinator.new.journal ≡ journal.now) }
    ensures legal { OnOk result (IsLegal (start coordinator.old.settings) journal.now) }
    ensures halts { IfErr result (Halts (IsLegal (start coordinator.old.settings)) journal.now) }
{
    for (i, noted) in journal.iter().enumerate() {
        reach(coordinator, i, noted)?;
        if !did(coordinator, i, noted) {
            let place = i as u64;
            return Err(Halt::NotLegal { place });
        }
    }
    if journal.len() < coordinator.journal().len() {
        let place = journal.len() as u64;
        return Err(Halt::NotLegal { place });
    }
    Ok(())
}

/// Drives a new coordinator over its recorded journal.
pub fn drive_coordinator(
    alloc: Global,
    settings: Settings,
    journal: &[Noted],
) -> Result<Coordinator, Halt>
    ensures settings { IfOk result (λ c. c.settings ≡ settings) }
    ensures journal { IfOk result (λ c. c.journal ≡ journal.now) }
    ensures legal { OnOk result (IsLegal (start settings) journal.now) }
    ensures halts { IfErr result (Halts (IsLegal (start settings)) journal.now) }
{
    let mut coordinator = Coordinator::new(alloc, settings)?;
    match drive(&mut coordinator, journal) {
        Ok(()) => Ok(coordinator),
        Err(halt) => {
            drop(coordinator);
            Err(halt)
        }
    }
}

/// Whether the last publication of a coordinator is the final one.
pub fn is_over(coordinator: &Coordinator) -> bool
    ensures { result ≡ is_final (last_of (publications coordinator.now.journal)) }
{
    match coordinator.published() {
        0 => false,
        count => coordinator.publication(count - 1).last,
    }
}
