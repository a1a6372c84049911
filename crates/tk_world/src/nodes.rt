//! What a world asks of its nodes, however their frames go.

ghost use Rattle.std.specs.Prelude.{◌≡◌, None, IfOk, OnErr, OnOk, map};
ghost use Rattle.tk_journal.specs.Refusal.{retune_refusal_of};
ghost use Rattle.tk_monitor.specs.Monitored.{IsFeederOf};
ghost use Rattle.tk_world.specs.Nodes.{AtSeat, CanGoDown, CanGoUp, ChecksAt, GoesDown, GoesUp, HasSeat, NodesView, RaisesAt, retuned};

use std::alloc::Global;
use tk_base::{Feeder, Mon, NoMemory};
use tk_coord::Coordinator;
use tk_monitor::{Monitor, Raised};

/// A coordinator and its monitors, with what carries their frames: each call makes one step of one of them.
pub trait Nodes {
    /// The coordinator, and each monitor with how far its two links were walked.
    ghost seen: { Self → NodesView };

    /// The coordinator alone.
    fn coordinator(&self) -> &Coordinator
        ensures { result.now ≡ (seen self.now).coordinator };

    /// A monitor alone.
    fn monitor(&self, mon: Mon) -> &Monitor
        requires { HasSeat (seen self.now) mon.0 }
        ensures { AtSeat (seen self.now) mon.0 (λ seat. result.now ≡ seat.monitor) };

    /// How many frames of the coordinator a monitor took.
    fn taken(&self, mon: Mon) -> usize
        requires { HasSeat (seen self.now) mon.0 }
        ensures { AtSeat (seen self.now) mon.0 (λ seat. result ≡ seat.taken) };

    /// How many frames of a monitor the coordinator took.
    fn got(&self, mon: Mon) -> usize
        requires { HasSeat (seen self.now) mon.0 }
        ensures { AtSeat (seen self.now) mon.0 (λ seat. result ≡ seat.got) };

    /// Raises the next change of a feeder at its monitor, without memory.
    fn raise(&mut self, mon: Mon, f: Feeder) -> Raised
        requires seat { HasSeat (seen self.old) mon.0 }
        requires feeder { AtSeat (seen self.old) mon.0 (λ seat. IsFeederOf seat.monitor.setup f.0) }
        ensures { AtSeat (seen self.old) mon.0 (RaisesAt mon.0 f result (seen self.old) (seen self.new)) };

    /// Checks a monitor, which sends what is due.
    fn check(&mut self, mon: Mon) -> Result<(), NoMemory>
        requires { HasSeat (seen self.old) mon.0 }
        ensures ok { OnOk result (AtSeat (seen self.old) mon.0 (ChecksAt mon.0 (seen self.old) (seen self.new))) }
        ensures err { OnErr result (seen self.new ≡ seen self.old) };

    /// The coordinator takes the next frame of a monitor.
    fn up(&mut self, mon: Mon) -> Result<(), NoMemory>
        requires seat { HasSeat (seen self.old) mon.0 }
        requires accepted { AtSeat (seen self.old) mon.0 (CanGoUp (seen self.old) mon.0) }
        ensures ok { OnOk result (AtSeat (seen self.old) mon.0 (GoesUp mon (seen self.old) (seen self.new))) }
        ensures err { OnErr result (seen self.new ≡ seen self.old) };

    /// A monitor takes the next frame of the coordinator.
    fn down(&mut self, mon: Mon) -> Result<(), NoMemory>
        requires seat { HasSeat (seen self.old) mon.0 }
        requires accepted { AtSeat (seen self.old) mon.0 (CanGoDown (seen self.old) mon.0) }
        ensures ok { OnOk result (AtSeat (seen self.old) mon.0 (GoesDown mon.0 (seen self.old) (seen self.new))) }
        ensures err { OnErr result (seen self.new ≡ seen self.old) };

    /// The coordinator takes another k and epsilon.
    fn retune(&mut self, k: u64, epsilon: u128) -> Result<(), NoMemory>
        requires { retune_refusal_of (seen self.old).coordinator.settings (seen self.old).coordinator.journal k epsilon ≡ None }
        ensures ok { OnOk result (seen self.new ≡ retuned (seen self.old) k epsilon) }
        ensures err { OnErr result (seen self.new ≡ seen self.old) };

    /// The coordinator and the monitors alone.
    fn into_parts(self, alloc: Global) -> Result<(Coordinator, Vec<Monitor>), NoMemory>
        ensures coordinator { IfOk result (λ parts. parts.0 ≡ (seen self).coordinator) }
        ensures monitors { IfOk result (λ parts. parts.1.items ≡ map (λ seat. seat.monitor) (seen self).seats) };
}
