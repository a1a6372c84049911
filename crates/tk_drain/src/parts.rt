//! Which parts some logs have, and how long the longest is.

ghost use Rattle.std.specs.Prelude.{◌≡◌, ◌++◌, ◌≤◌, IfOk, length, map};
ghost use Rattle.std.specs.List.{range_with_len};
ghost use Rattle.tk_input.specs.Logs.{IsMonitor, parts_of as parts_in};
ghost use Rattle.tk_world.specs.Events.{raise_at};
ghost use Rattle.tk_drain.specs.Drive.{longest_of as longest_in_logs, pass_of};
ghost use Rattle.tk_drain.specs.Passing.{longest_from, raises};

use std::alloc::Global;
use tk_base::{Feeder, Mon, NoMemory};
use tk_input::Logs;

/// Appends the parts of one monitor, by feeder.
fn push_parts(parts: &mut Vec<(Mon, Feeder)>, mon: Mon, feeders: u32) -> Result<(), NoMemory>
    requires { feeders ≤ 8 }
    ensures { IfOk result (λ _. raises parts.new.items
        ≡ raises parts.old.items ++ map (raise_at mon.0) (range_with_len 1 feeders)) }
{
    for f in 0..feeders {
        parts.push((mon, Feeder(f + 1)))?;
    }
    Ok(())
}

/// Each part of the logs, by monitor and feeder.
pub fn parts_of(alloc: Global, logs: &Logs) -> Result<Vec<(Mon, Feeder)>, NoMemory>
    ensures { IfOk result (λ parts. raises parts.items ≡ pass_of logs.now) }
{
    let mut parts = Vec::new(alloc);
    for j in 0..logs.monitors() {
        let mon = Mon(j + 1);
        push_parts(&mut parts, mon, logs.feeders(mon))?;
    }
    Ok(parts)
}

/// The greater of a number and the changes of the longest part of a monitor.
fn longest_in(logs: &Logs, mon: Mon, most: u32) -> u32
    requires { IsMonitor logs.now mon.0 }
    ensures { result ≡ longest_from most (parts_in logs.now.logs mon.0) }
{
    let mut longest = most;
    for f in 0..logs.feeders(mon) {
        longest = longest.max(logs.length(mon, Feeder(f + 1)));
    }
    longest
}

/// How many changes the longest part of the logs has.
pub fn longest_of(logs: &Logs) -> u32
    ensures { result ≡ longest_in_logs logs.now }
{
    let mut longest = 0;
    for j in 0..logs.monitors() {
        longest = longest_in(logs, Mon(j + 1), longest);
    }
    longest
}
