// Readings of all seats of a world.
ghost use Rattle.std.specs.Prelude.{◌≡◌, length, map, true, false, IfOk};
ghost use Rattle.tk_world.specs.Nodes.{HasSeat};
ghost use Rattle.tk_world.specs.Seats.{AreQuiet, AreResting, IsOneAtWork, IsOneUnquiet, places_in};

use crate::nodes::Nodes;
use crate::seat::{has_empty_links, is_at_rest, is_quiet};
use crate::work::Work;
use std::alloc::Global;
use tk_base::{Cut, Mon, NoMemory};

/// Whether all are quiet.
pub fn are_quiet<N: Nodes>(nodes: &N) -> bool
    requires { length (N.seen nodes.now).seats ≡ (N.seen nodes.now).coordinator.settings.monitors }
    ensures yes { result ≡ true → AreQuiet (N.seen nodes.now).coordinator.journal (N.seen nodes.now).seats }
    ensures some { result ≡ false → IsOneUnquiet (N.seen nodes.now).coordinator.journal (N.seen nodes.now).seats }
{
    for j in 0..nodes.coordinator().settings().monitors() {
        if !is_quiet(nodes, Mon(j + 1)) {
            return false;
        }
    }
    true
}

/// Whether all of a set are at rest.
pub fn are_at_rest<N: Nodes>(nodes: &N, work: Work) -> bool
    requires { length (N.seen nodes.now).seats ≡ (N.seen nodes.now).coordinator.settings.monitors }
    ensures yes { result ≡ true → AreResting (N.seen nodes.now).coordinator.journal work (N.seen nodes.now).seats }
    ensures some { result ≡ false → IsOneAtWork (N.seen nodes.now).coordinator.journal work (N.seen nodes.now).seats }
{
    for j in 0..nodes.coordinator().settings().monitors() {
        let mon = Mon(j + 1);
        if work.contains(mon) && !is_at_rest(nodes, mon) {
            return false;
        }
    }
    true
}

/// How far each feeder of each of them is.
pub fn cut_at<N: Nodes>(alloc: Global, nodes: &N) -> Result<Cut, NoMemory>
    requires { length (N.seen nodes.now).seats ≡ (N.seen nodes.now).coordinator.settings.monitors }
    ensures { IfOk result (λ cut. cut ≡ map places_in (N.seen nodes.now).seats) }
{
    let count = nodes.coordinator().settings().monitors();
    let mut list = Vec::with_capacity(alloc, count as usize)?;
    for j in 0..count {
        list.push(nodes.monitor(Mon(j + 1)).places()?)?;
    }
    Ok(Cut::new(list))
}
