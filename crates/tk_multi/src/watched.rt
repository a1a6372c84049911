//! The logs of a query: of each part the changes of the objects that it watches.

ghost use Rattle.std.specs.Prelude.{◌≡◌, ◌≤◌, ◌++◌, IfOk, OnOk, length, map};
ghost use Rattle.tk_input.specs.Judged.{Assigned};
ghost use Rattle.tk_input.specs.Logs.{AreGathered, IsMonitor, parts_of};
ghost use Rattle.tk_multi.specs.Projection.{Numbers, seen_logs, watched_in};
ghost use Rattle.tk_input.specs.Judged.{assigned_from, under};

use crate::watch::Watch;
use std::alloc::Global;
use tk_base::{Feeder, Mon, NoMemory};
use tk_input::{Logs, LogsFault, Part};

/// Adds the watched changes of each part of a monitor.
fn add_parts(
    alloc: Global,
    logs: &Logs,
    watch: &Watch,
    mon: Mon,
    list: &mut Vec<(Mon, Part)>,
) -> Result<(), NoMemory>
    requires { IsMonitor logs.now mon.0 }
    ensures { OnOk result (list.new.items
        ≡ list.old.items ++ under mon.0 (map (watched_in watch.now) (parts_of logs.now.logs mon.0))) }
{
    let parts = logs.parts(alloc, mon)?;
    for part in parts.as_slice() {
        list.push((mon, watch.part(alloc, part)?))?;
    }
    Ok(())
}

fn parts_for(alloc: Global, logs: &Logs, watch: &Watch) -> Result<Vec<(Mon, Part)>, NoMemory>
    ensures parts { IfOk result (λ parts. parts.items ≡ assigned_from 1 (seen_logs watch.now logs.now.logs)) }
    ensures gathered { OnOk result (AreGathered logs.now) }
{
    let mut parts = Vec::new(alloc);
    for j in 0..logs.monitors() {
        add_parts(alloc, logs, watch, Mon(j + 1), &mut parts)?;
    }
    Ok(parts)
}

/// Want of memory, the only fault of logs that pass all tests.
fn of_logs(fault: LogsFault) -> NoMemory
    requires { fault ≡ LogsFault.NoMemory }
{
    match fault {
        LogsFault::NoMemory => NoMemory,
        _ => unreachable!(),
    }
}

/// The logs of the watched objects, of which there are so many. They pass all tests, since the common ones do.
pub fn logs_for(alloc: Global, logs: &Logs, watch: &Watch, objects: u32) -> Result<Logs, NoMemory>
    requires { Numbers objects watch.now }
    ensures { IfOk result (λ s. s ≡ record { logs = seen_logs watch.now logs.now.logs; objects = objects }) }
{
    let parts = parts_for(alloc, logs, watch)?;
    match Logs::new(alloc, parts, objects) {
        Ok(own) => Ok(own),
        Err(fault) => Err(of_logs(fault)),
    }
}
