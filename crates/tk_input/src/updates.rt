//! How many changes some logs have.

ghost use Rattle.std.specs.Prelude.{◌≡◌, ◌≤◌, sum_by};
ghost use Rattle.tk_input.specs.Logs.{IsMonitor, parts_of, updates_of};

use crate::logs::Logs;
use tk_base::{Feeder, Mon};

fn updates_at(logs: &Logs, mon: Mon) -> u32
    requires { IsMonitor logs.now mon.0 }
    ensures value { result ≡ updates_of (parts_of logs.now.logs mon.0) }
    ensures most { result ≤ 8000000 }
{
    let mut updates = 0;
    for f in 0..logs.feeders(mon) {
        updates += logs.length(mon, Feeder(f + 1));
    }
    updates
}

/// How many changes some logs have.
pub fn updates_in(logs: &Logs) -> u32
    ensures value { result ≡ sum_by updates_of logs.now.logs }
    ensures most { result ≤ 4000000 }
{
    let mut updates = 0;
    for j in 0..logs.monitors() {
        updates += updates_at(logs, Mon(j + 1));
    }
    updates
}
