//! What a feeder does in its thread: raise after raise under the lock, with the bell where something is due.

ghost use Rattle.tk_monitor.specs.Monitored.{IsFeederOf};

use crate::cell::{PortCell, PortName, Shared};
use crate::gate::Gate;
use std::sync::Wait;
use tk_base::{Feeder, Mon};
use tk_monitor::Raised;
use tk_wire::{Bell, Wire};

/// One raise, and whether a Report or the end may be due by it: something broke that was not broken, or the part is at its
/// end. What was broken before has rung its bell.
fn raise<W: Wire, N: PortName>(shared: &mut Shared<W, N>, f: Feeder) -> (Option<Raised>, bool)
    requires { IsFeederOf N.setup f.0 }
{
    let was_broken = shared.port.monitor().broken();
    let raised = shared.raise(f);
    let is_due = match raised {
        Some(Raised::Done { broken }) => broken && !was_broken,
        Some(Raised::Ended) => true,
        None => false,
    };
    (raised, is_due)
}

/// Raises the changes of a feeder one by one: the gate, the lock, one raise, and the bell where a message may be due. It ends
/// at the end of the part, or where the port is halted. What it found under the lock no clause can tell; `Shared::raise` has
/// the clauses.
pub fn feed<R: Wait, W: Wire, N: PortName, G: Gate, B: Bell>(
    rt: &R,
    cell: &PortCell<W, N>,
    mon: Mon,
    f: Feeder,
    gate: &G,
    bell: &B,
)
    requires { IsFeederOf N.setup f.0 }
{
    for _ in rt.forever() {
        gate.before(mon, f);
        let (raised, is_due) = raise(&mut cell.lock(rt), f);
        if is_due {
            bell.ring();
        }
        match raised {
            Some(Raised::Done { .. }) => {}
            Some(Raised::Ended) => break,
            None => break,
        }
    }
}
