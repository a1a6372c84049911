//! The check of a record: fresh nodes are driven over its parts, and then joined to its story.

ghost use Rattle.std.specs.Prelude.{◌≡◌, ◌⊎◌, List, [], None, IfOk, IfErr, OnOk, length, map};
ghost use Rattle.tk_input.specs.Logs.{IsCut};
ghost use Rattle.tk_journal.specs.declared.noted.Noted.{Noted as Said};
ghost use Rattle.tk_story.specs.Ends.{all_made_for, as_made};
ghost use Rattle.tk_story.specs.Story.{IsStory};
ghost use Rattle.tk_verify.specs.Verifying.{AreDriven, AreLegalTrails, Judges, Reveals, driven_story, is_found, is_unjoined};
ghost use Rattle.tk_story.specs.Headline.{ReachesItsEnd};
ghost use Rattle.tk_verify.specs.Recorded.{AreAgreed, Answers, Finds, IsFinished, recorded, recorded_from, trails_in};
ghost use Rattle.tk_verify.specs.declared.finding.Finding.{Finding as Found};
ghost use Rattle.tk_verify.specs.declared.finding.Finding.TheVariants.{NoMemory as Memory};

use crate::finding::Finding;
use crate::halt::Halt;
use crate::journals::{drive_coordinator, is_over};
use crate::laws::{nothing_is_found_of_a_finished_story, one_finding};
use crate::trails::drive_monitor;
use std::alloc::Global;
use tk_base::{Cut, Mon, NoMemory, Settings};
use tk_coord::Coordinator;
use tk_input::Logs;
use tk_journal::Noted;
use tk_monitor::Monitor;
use tk_story::{CoordEnd, JoinFault, MonEnd, Story};
use tk_trail::Entry;

/// What is found where the driving over a part halts.
fn found(part: u32, halt: Halt) -> Finding
    ensures { result ≡ is_found part halt }
{
    match halt {
        Halt::NotLegal { place } => Finding::NotLegal { part, place },
        Halt::NoMemory => Finding::NoMemory,
    }
}

/// What is found where ends make no story.
fn unjoined(fault: &JoinFault) -> Finding
    ensures { result ≡ is_unjoined fault.now }
{
    match fault {
        JoinFault::Differs(difference) => Finding::Links {
            mon: difference.mon,
            direction: difference.direction,
            place: difference.place,
        },
        JoinFault::NoMemory => Finding::NoMemory,
    }
}

/// Drives the monitors over their trails, in order.
fn drive_monitors(
    alloc: Global,
    settings: &Settings,
    logs: &Logs,
    from: &Cut,
    trails: &[Vec<Entry>],
) -> Result<Vec<Monitor>, Finding>
    requires agreed { AreAgreed settings.now logs.now }
    requires cut { IsCut logs.now.logs from.now }
    requires trails { length trails.now ≡ settings.now.monitors }
    ensures made { IfOk result (λ ms. map as_made ms.items ≡ all_made_for settings.now logs.now from.now) }
    ensures trails { IfOk result (λ ms. map (λ m. m.trail) ms.items ≡ trails_in trails.now) }
    ensures legal { (journal : List Said)
        → OnOk result (AreLegalTrails (recorded_from from.now settings.now logs.now journal (trails_in trails.now))) }
    ensures found { (journal : List Said)
        → IfErr result (Reveals (recorded_from from.now settings.now logs.now journal (trails_in trails.now))) }
{
    let Ok(room) = Vec::with_capacity(alloc, settings.monitors() as usize) else {
        return Err(Finding::NoMemory);
    };
    let mut monitors = room;
    for j in 0..settings.monitors() {
        let trail = trails[j as usize].as_slice();
        let monitor = match drive_monitor(alloc, settings, logs, from, Mon(j + 1), trail) {
            Ok(monitor) => monitor,
            Err(halt) => {
                drop(monitors);
                return Err(found(j + 1, halt));
            }
        };
        monitors.push_reserved(monitor);
    }
    Ok(monitors)
}

/// The ends of monitors that received nothing but what they took.
fn ends_of(alloc: Global, monitors: Vec<Monitor>) -> Result<Vec<MonEnd>, NoMemory>
    ensures monitors { IfOk result (λ ends. map (λ end. end.monitor) ends.items ≡ monitors.items) }
    ensures odds { IfOk result (λ ends. map (λ end. end.odd) ends.items ≡ map (λ m. None) monitors.items) }
{
    let Ok(room) = Vec::with_capacity(alloc, monitors.len()) else {
        drop(monitors);
        return Err(NoMemory);
    };
    let mut ends = room;
    for monitor in monitors {
        ends.push_reserved(MonEnd::new(monitor, None));
    }
    Ok(ends)
}

/// Joins nodes that were driven over a record of a run.
fn join(
    alloc: Global,
    coordinator: Coordinator,
    monitors: Vec<Monitor>,
    logs: Logs,
    settings: Settings,
    from: Cut,
) -> Result<Story, Finding>
    requires { AreDriven settings logs from coordinator monitors.items }
    ensures story { IfOk result (λ s. s.story ≡ driven_story from settings logs coordinator monitors.items) }
    ensures events { IfOk result (λ s. s.events ≡ []) }
    ensures legal { OnOk result (IsStory (driven_story from settings logs coordinator monitors.items)) }
    ensures found { IfErr result (λ e. (e ≡ Memory) ⊎ Finds (driven_story from settings logs coordinator monitors.items) e) }
{
    // These are read for their clauses, the limits of settings and logs.
    let _ = settings.monitors();
    let _ = logs.monitors();
    let Ok(ends) = ends_of(alloc, monitors) else {
        drop(coordinator);
        drop(logs);
        drop(from);
        return Err(Finding::NoMemory);
    };
    let coordinator = CoordEnd::new(coordinator, None);
    match Story::join(coordinator, ends, logs, settings, from, Vec::new(alloc)) {
        Ok(story) => Ok(story),
        Err((fault, apart)) => {
            drop(apart);
            let finding = unjoined(&fault);
            drop(fault);
            Err(finding)
        }
    }
}

/// The story that a record from some places tells, or what is wrong with it.
fn judge(
    alloc: Global,
    settings: Settings,
    logs: Logs,
    from: Cut,
    journal: &[Noted],
    trails: &[Vec<Entry>],
) -> Result<Story, Finding>
    requires agreed { AreAgreed settings logs }
    requires cut { IsCut logs.logs from }
    requires trails { length trails.now ≡ settings.monitors }
    ensures { Judges (recorded_from from settings logs journal.now (trails_in trails.now)) result }
{
    let monitors = match drive_monitors(alloc, &settings, &logs, &from, trails) {
        Ok(monitors) => monitors,
        Err(finding) => {
            drop(logs);
            drop(from);
            return Err(finding);
        }
    };
    let coordinator = match drive_coordinator(alloc, settings, journal) {
        Ok(coordinator) => coordinator,
        Err(halt) => {
            drop(monitors);
            drop(logs);
            drop(from);
            return Err(found(settings.monitors() + 1, halt));
        }
    };
    let over = is_over(&coordinator);
    let story = join(alloc, coordinator, monitors, logs, settings, from)?;
    if !over {
        drop(story);
        return Err(Finding::NotFinal);
    }
    Ok(story)
}

/// The story of a record of a run from its beginning to its end, or the first of what is wrong with it. Costs what the
/// nodes did in that run: each entry is compared once, and each frame that was taken is copied once.
pub fn verify(
    alloc: Global,
    settings: Settings,
    logs: Logs,
    journal: &[Noted],
    trails: &[Vec<Entry>],
) -> Result<Story, Finding>
    requires agreed { AreAgreed settings logs }
    requires trails { length trails.now ≡ settings.monitors }
    // It is the story of exactly this record, with no events kept, which is legal and came to its end.
    ensures story { IfOk result (λ s. s.story ≡ recorded settings logs journal.now (trails_in trails.now)) }
    ensures events { IfOk result (λ s. s.events ≡ []) }
    ensures legal { OnOk result (IsStory (recorded settings logs journal.now (trails_in trails.now))) }
    ensures finished { OnOk result (ReachesItsEnd (recorded settings logs journal.now (trails_in trails.now))) }
    // Every record of such a story gives it, unless there is no memory.
    ensures succeeds { IsStory (recorded settings logs journal.now (trails_in trails.now))
        → IsFinished journal.now → IfErr result (λ e. e ≡ Memory) }
    // Else what is found is told, exactly where it is found, unless there is no memory.
    ensures found { IfErr result (λ e. (e ≡ Memory) ⊎ Finds (recorded settings logs journal.now (trails_in trails.now)) e) }
    ensures exact { (finding : Found) → Finds (recorded settings logs journal.now (trails_in trails.now)) finding
        → Answers finding result }
{
    one_finding();
    nothing_is_found_of_a_finished_story();
    match logs.start(alloc) {
        Ok(from) => judge(alloc, settings, logs, from, journal, trails),
        Err(NoMemory) => Err(Finding::NoMemory),
    }
}
