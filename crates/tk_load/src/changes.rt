//! The logs of a run, parsed side by side and joined, with the ends of their ticks.

ghost use Rattle.std.specs.Prelude.{◌≡◌, ◌⊎◌, ◌+◌, ◌≤◌, Err, Ok, Result, IfErr, IfOk, All, length};
ghost use Rattle.tk_input.specs.Judged.{last_monitor};
ghost use Rattle.tk_input.specs.Logs.{IsObject};
ghost use Rattle.tk_load.specs.Faults.{Fault, after, bad_file as bad_file_fault};
ghost use Rattle.tk_load.specs.Input.{counted, ends_with, greatest_monitor, joined, logs_in, together};
ghost use Rattle.tk_load.specs.Reads.{AreKept, Counts, Meets, ReadsLogs, Says, reads_by};
ghost use Rattle.tk_load.specs.Whole.{IsWidth};
ghost use Rattle.tk_load.specs.declared.status.InputKind.TheVariants.{TooManyUpdates};
ghost use Rattle.tk_window.specs.Expanded.{expansion_of, sources_of};
ghost use Rattle.tk_window.specs.TickEnds.{last_source, parts_in};
ghost use Rattle.tk_window.specs.Ticks.{AreOver};
ghost use Rattle.tk_window.specs.Window.{Expansion};
ghost use Rattle.tk_words.specs.Asked.{AreOfMonitors, asked_logs};

use crate::batch::next_logs;
use crate::reading::{bad_file, bad_whole};
use crate::status::{InputKind, Status};
use std::alloc::Global;
use std::marker::Sync;
use std::thread::Threads;
use tk_base::{Mon, NoMemory};
use tk_input::{Catalog, Files, Logs, LogsFault, Part};
use tk_window::{Expanded, TickEnds};

const MAX_UPDATES: usize = 4_000_000;

/// The logs of all monitors, and where their ticks end, of a window over them.
#[derive(Drop)]
pub struct Together {
    pub logs: Logs,
    pub ends: Option<TickEnds>,
}

/// A log, refused where there are too many changes with those before it.
fn next_part(
    alloc: Global,
    file: &str,
    before: usize,
    log: Result<Expanded, Status>,
) -> Result<Expanded, Status>
    requires before { before ≤ 4000000 }
    ensures same { IfOk result (λ e. log ≡ Ok e) }
    ensures few { IfOk result (λ e. before + length e.part ≤ 4000000) }
    ensures meets { (m : Result Expansion Fault) → Meets expansion_of m log
        → Meets expansion_of (after m (counted before file.now)) result }
    ensures err { IfErr result (λ status. (log ≡ Err status) ⊎ Says status (bad_file_fault file.now TooManyUpdates)) }
{
    let log = match log {
        Ok(log) => log,
        Err(status) => return Err(status),
    };
    if log.part.len() > MAX_UPDATES - before {
        return Err(bad_file(alloc, file, 0, InputKind::TooManyUpdates));
    }
    Ok(log)
}

/// Each log in the order of the words. Those of a batch are parsed side by side.
pub fn parts_of<R: Threads + Sync, F: Files>(
    rt: &R,
    alloc: Global,
    words: &[(Mon, &str)],
    names: &Catalog,
    width: Option<u32>,
    files: &mut F,
) -> Result<Vec<(Mon, Expanded)>, Status>
    requires width { IsWidth width }
    requires monitors { AreOfMonitors words.now }
    ensures monitors { IfOk result (λ logs. All (λ l. (1 ≤ l.0.0) × (l.0.0 ≤ 64)) logs.items) }
    ensures last { IfOk result (λ logs. last_source (sources_of logs.items) ≡ greatest_monitor (asked_logs words.now)) }
    ensures objects { IfOk result (λ logs. All (λ l. AreOver (length names.now) l.1.part) logs.items) }
    ensures lengths { IfOk result (λ logs. All (λ l. length l.1.part ≤ 1000000) logs.items) }
    ensures read { ReadsLogs (reads_by F.Files files.old files.new)
        (asked_logs words.now) (λ l. sources_of l.items) (logs_in width names.now) result }
    ensures kept { AreKept F.Files files.old files.new }
    ensures counts { Counts (reads_by F.Files files.old files.new) result }
{
    let mut parts = Vec::new(alloc);
    let mut updates = 0;
    while parts.len() < words.len() {
        let logs = next_logs(rt, alloc, names, width, files, &words[parts.len()..])?;
        for log in logs {
            let (mon, file) = words[parts.len()];
            let log = match next_part(alloc, file, updates, log) {
                Ok(log) => log,
                Err(status) => return Err(status),
            };
            updates += log.part.len();
            parts.push((mon, log))?;
        }
    }
    Ok(parts)
}

/// The logs of all monitors.
pub fn logs_of(alloc: Global, parts: Vec<(Mon, Part)>, objects: u32) -> Result<Logs, Status>
    requires monitors { All (λ p. (1 ≤ p.0.0) × (p.0.0 ≤ 64)) parts.items }
    requires objects { All (λ p. All (λ c. IsObject objects c.0) p.1) parts.items }
    requires lengths { All (λ p. length p.1 ≤ 1000000) parts.items }
    ensures objects { IfOk result (λ s. s.objects ≡ objects) }
    ensures monitors { IfOk result (λ s. length s.logs ≡ last_monitor parts.items) }
    ensures meets { Meets (λ s. s) (joined parts.items objects) result }
{
    match Logs::new(alloc, parts, objects) {
        Ok(logs) => Ok(logs),
        Err(LogsFault::NoMemory) => Err(Status::NoMemory),
        Err(LogsFault::TooGreat { mon, obj }) => Err(Status::TooGreat { mon, obj }),
        Err(LogsFault::MonitorGap(mon)) => Err(bad_whole(alloc, InputKind::MonitorGap(mon))),
        Err(LogsFault::TooManyFeeders(mon)) => {
            Err(bad_whole(alloc, InputKind::TooManyFeeders(mon)))
        }
        Err(LogsFault::TooManyUpdates) => Err(bad_whole(alloc, InputKind::TooManyUpdates)),
    }
}

/// The changes of some logs, each part with the list that it shares.
fn parts_from(alloc: Global, logs: &[(Mon, Expanded)]) -> Result<Vec<(Mon, Part)>, NoMemory>
    ensures { IfOk result (λ parts. parts.items ≡ parts_in (sources_of logs.now)) }
{
    let mut parts = Vec::with_capacity(alloc, logs.len())?;
    for (mon, log) in logs {
        parts.push((*mon, log.part.try_clone()?))?;
    }
    Ok(parts)
}

/// Where the ticks of some logs end, where a window goes over them.
fn ends_of(
    alloc: Global,
    logs: &[(Mon, Expanded)],
    width: Option<u32>,
) -> Result<Option<TickEnds>, NoMemory>
    ensures { IfOk result (λ ends. ends ≡ ends_with width (sources_of logs.now)) }
{
    match width {
        None => Ok(None),
        Some(_) => Ok(Some(TickEnds::new(alloc, logs)?)),
    }
}

/// The logs of all monitors, of what was read.
pub fn logs_from(alloc: Global, logs: &[(Mon, Expanded)], objects: u32) -> Result<Logs, Status>
    requires monitors { All (λ l. (1 ≤ l.0.0) × (l.0.0 ≤ 64)) logs.now }
    requires objects { All (λ l. AreOver objects l.1.part) logs.now }
    requires lengths { All (λ l. length l.1.part ≤ 1000000) logs.now }
    ensures objects { IfOk result (λ s. s.objects ≡ objects) }
    ensures monitors { IfOk result (λ s. length s.logs ≡ last_source (sources_of logs.now)) }
    ensures meets { Meets (λ s. s) (joined (parts_in (sources_of logs.now)) objects) result }
{
    let parts = parts_from(alloc, logs)?;
    logs_of(alloc, parts, objects)
}

/// The logs of all monitors, and where their ticks end.
pub fn join(
    alloc: Global,
    logs: &[(Mon, Expanded)],
    width: Option<u32>,
    objects: u32,
) -> Result<Together, Status>
    requires monitors { All (λ l. (1 ≤ l.0.0) × (l.0.0 ≤ 64)) logs.now }
    requires objects { All (λ l. AreOver objects l.1.part) logs.now }
    requires lengths { All (λ l. length l.1.part ≤ 1000000) logs.now }
    ensures objects { IfOk result (λ t. t.logs.objects ≡ objects) }
    ensures monitors { IfOk result (λ t. length t.logs.logs ≡ last_source (sources_of logs.now)) }
    ensures meets { Meets (λ t. t) (together width (sources_of logs.now) objects) result }
{
    let all = match logs_from(alloc, logs, objects) {
        Ok(all) => all,
        Err(status) => return Err(status),
    };
    let ends = ends_of(alloc, logs, width)?;
    Ok(Together { logs: all, ends })
}
