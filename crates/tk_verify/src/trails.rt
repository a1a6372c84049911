// Monitors driven over their recorded trails.
ghost use Rattle.std.specs.Prelude.{◌≡◌, ◌≢◌, ◌↔◌, [], IsTrue, IfOk, IfErr, OnOk, Some, length, slice_get};
ghost use Rattle.tk_frames.specs.declared.frame.Frame.{Frame as Told};
ghost use Rattle.tk_input.specs.Logs.{IsCut, IsMonitor};
ghost use Rattle.tk_story.specs.Ends.{as_made, made_for};
ghost use Rattle.tk_trail.specs.Legal.{IsLegal};
ghost use Rattle.tk_trail.specs.declared.entry.Entry.TheVariants as e;
ghost use Rattle.tk_trail.specs.declared.refusal.MonitorRefusal.TheVariants.{NoMemory as Memory};
ghost use Rattle.tk_verify.specs.Driving.{Halts, Leads, LeadsAt};
ghost use Rattle.tk_verify.specs.Recorded.{AreAgreed};

use crate::halt::Halt;
use std::alloc::Global;
use tk_base::{Cut, Feeder, Mon, NoMemory, Settings};
use tk_frames::Frame;
use tk_input::Logs;
use tk_monitor::Monitor;
use tk_story::is_same_entry;
use tk_trail::{Entry, MonitorRefusal};

/// Raises the next change of a feeder, if there is such a feeder and it has one.
fn raise(monitor: &mut Monitor, feeders: u32, f: Feeder)
    requires { feeders ≡ length monitor.old.setup.parts }
    ensures made { as_made monitor.new ≡ as_made monitor.old }
    ensures leads { Leads (IsLegal monitor.old.setup) monitor.old.trail (e.Raised f) monitor.new.trail }
{
    // The trail is read for its clause, that it is legal.
    let _ = monitor.trail();
    if f.0 == 0 || f.0 > feeders {
        return;
    }
    let _ = monitor.raise(f);
}

/// Passes on want of memory alone.
fn unless_memory(refusal: MonitorRefusal) -> Result<(), NoMemory>
    ensures { OnOk result (refusal ≢ Memory) }
{
    match refusal {
        MonitorRefusal::NoMemory => Err(NoMemory),
        _ => Ok(()),
    }
}

/// Hands a frame in, which the monitor takes or refuses.
fn take(monitor: &mut Monitor, frame: &Frame) -> Result<(), NoMemory>
    ensures made { as_made monitor.new ≡ as_made monitor.old }
    ensures leads { OnOk result (Leads (IsLegal monitor.old.setup) monitor.old.trail (e.Took frame.now) monitor.new.trail) }
{
    let _ = monitor.trail();
    let frame = frame.try_clone()?;
    match monitor.take(frame) {
        Ok(()) => Ok(()),
        Err((refusal, frame)) => {
            drop(frame);
            unless_memory(refusal)
        }
    }
}

/// Lets the monitor say what is due.
fn check(monitor: &mut Monitor) -> Result<(), NoMemory>
    ensures made { as_made monitor.new ≡ as_made monitor.old }
    ensures leads { (frame : Told)
        → OnOk result (Leads (IsLegal monitor.old.setup) monitor.old.trail (e.Sent frame) monitor.new.trail) }
{
    let _ = monitor.trail();
    monitor.check()?;
    Ok(())
}

/// Hands an entry in that stands behind all that the monitor did.
fn hand_in(monitor: &mut Monitor, feeders: u32, entry: &Entry) -> Result<(), NoMemory>
    requires { feeders ≡ length monitor.old.setup.parts }
    ensures made { as_made monitor.new ≡ as_made monitor.old }
    ensures leads { OnOk result (Leads (IsLegal monitor.old.setup) monitor.old.trail entry.now monitor.new.trail) }
{
    match entry {
        Entry::Raised(f) => {
            raise(monitor, feeders, *f);
            Ok(())
        }
        Entry::Took(frame) => take(monitor, frame.get()),
        Entry::Sent(_) => check(monitor),
    }
}

/// Has the monitor do what stands at a place behind what was seen, unless it did so much already.
fn reach(monitor: &mut Monitor, feeders: u32, place: usize, entry: &Entry) -> Result<(), NoMemory>
    requires { feeders ≡ length monitor.old.setup.parts }
    ensures made { as_made monitor.new ≡ as_made monitor.old }
    ensures leads { LeadsAt (IsLegal monitor.old.setup) place entry.now monitor.old.trail monitor.new.trail result }
{
    if place < monitor.trail().len() {
        return Ok(());
    }
    hand_in(monitor, feeders, entry)
}

/// Whether the monitor did this at a place.
fn did(monitor: &Monitor, place: usize, entry: &Entry) -> bool
    ensures { IsTrue result ↔ (slice_get monitor.now.trail place ≡ Some entry.now) }
{
    match monitor.trail().get(place) {
        Some(done) => is_same_entry(done, entry),
        None => false,
    }
}

/// Drives a fresh monitor over a trail.
fn drive(monitor: &mut Monitor, feeders: u32, trail: &[Entry]) -> Result<(), Halt>
    requires fresh { monitor.old.trail ≡ [] }
    requires feeders { feeders ≡ length monitor.old.setup.parts }
    ensures made { as_made monitor.new ≡ as_made monitor.old }
    ensures trail { OnOk result (monitor.new.trail ≡ trail.now) }
    ensures legal { OnOk result (IsLegal monitor.old.setup trail.now) }
    ensures halts { IfErr result (Halts (IsLegal monitor.old.setup) trail.now) }
{
    for (i, entry) in trail.iter().enumerate() {
        reach(monitor, feeders, i, entry)?;
        if !did(monitor, i, entry) {
            let place = i as u64;
            return Err(Halt::NotLegal { place });
        }
    }
    if trail.len() < monitor.trail().len() {
        let place = trail.len() as u64;
        return Err(Halt::NotLegal { place });
    }
    Ok(())
}

/// Drives a new monitor of some logs over its recorded trail.
pub fn drive_monitor(
    alloc: Global,
    settings: &Settings,
    logs: &Logs,
    from: &Cut,
    mon: Mon,
    trail: &[Entry],
) -> Result<Monitor, Halt>
    requires agreed { AreAgreed settings.now logs.now }
    requires cut { IsCut logs.now.logs from.now }
    requires monitor { IsMonitor logs.now mon.0 }
    ensures made { IfOk result (λ m. as_made m ≡ made_for settings.now logs.now from.now mon.0) }
    ensures trail { IfOk result (λ m. m.trail ≡ trail.now) }
    ensures legal { OnOk result (IsLegal (made_for settings.now logs.now from.now mon.0).setup trail.now) }
    ensures halts { IfErr result (Halts (IsLegal (made_for settings.now logs.now from.now mon.0).setup) trail.now) }
{
    let parts = logs.parts(alloc, mon)?;
    let places = from.at(mon.0 as usize - 1);
    let mut monitor = Monitor::new(alloc, settings, mon, parts, places)?;
    match drive(&mut monitor, logs.feeders(mon), trail) {
        Ok(()) => Ok(monitor),
        Err(halt) => {
            drop(monitor);
            Err(halt)
        }
    }
}
