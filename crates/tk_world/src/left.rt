// How many changes are left behind a cut.
ghost use Rattle.std.specs.Prelude.{◌≡◌, ◌<◌, ◌≤◌, ◌^◌};
ghost use Rattle.tk_input.specs.Logs.{IsCut, IsMonitor as IsMonitorOf, parts_of, places_of};
ghost use Rattle.tk_monitor.specs.Kept.{left_in};
ghost use Rattle.tk_world.specs.Seats.{left_behind};

use tk_base::{Cut, Feeder, Mon};
use tk_input::Logs;

/// How many changes a monitor has left.
fn left_of(logs: &Logs, from: &Cut, mon: Mon) -> usize
    requires cut { IsCut logs.now.logs from.now }
    requires monitor { IsMonitorOf logs.now mon.0 }
    ensures value { result ≡ left_in (parts_of logs.now.logs mon.0) (places_of from.now mon.0) }
    ensures size { result ≤ 8000000 }
{
    let places = from.at(mon.0 as usize - 1);
    let mut left = 0;
    for f in 0..logs.feeders(mon) {
        let length = logs.length(mon, Feeder(f + 1));
        left += (length - places.at(f as usize)) as usize;
    }
    left
}

/// How many changes the monitors have left.
pub fn left_after(logs: &Logs, from: &Cut) -> usize
    requires { IsCut logs.now.logs from.now }
    ensures value { result ≡ left_behind logs.now from.now }
    ensures few { result < 2 ^ 32 }
{
    let mut left = 0;
    for j in 0..logs.monitors() {
        left += left_of(logs, from, Mon(j + 1));
    }
    left
}
