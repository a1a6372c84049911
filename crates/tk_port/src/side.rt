//! The monitor as an actor, whose frames the link of a port carries.

use tk_base::Mon;
use tk_end::{Actor, Declined};
use tk_frames::Frame;
use tk_monitor::Monitor;
use tk_trail::MonitorRefusal;

/// The number of the coordinator among the nodes.
pub const COORDINATOR: Mon = Mon(0);

/// A monitor, whose only peer is the coordinator.
#[derive(Drop)]
pub struct Side {
    pub monitor: Monitor,
}

impl Actor for Side {
    type Refusal = MonitorRefusal;

    ghost use Rattle.tk_port.specs.Side.{IsSide, heard_by, said_by, stops, refuses, takes};

    ghost IsPeer = { IsSide };

    ghost heard = { heard_by };

    ghost said = { said_by };

    ghost is_done = { stops };

    ghost refusal_of = { refuses };

    ghost after = { takes };

    fn take(&mut self, peer: Mon, frame: Frame) -> Result<(), Declined<MonitorRefusal>> {
        match self.monitor.take(frame) {
            Ok(()) => Ok(()),
            Err((MonitorRefusal::NoMemory, frame)) => Err(Declined::NoMemory(frame)),
            Err((why, frame)) => Err(Declined::Refused(why, frame)),
        }
    }

    fn done(&self, peer: Mon) -> bool {
        self.monitor.stopped()
    }

    fn count(&self, peer: Mon) -> usize {
        self.monitor.sent()
    }

    fn frame_at(&self, peer: Mon, i: usize) -> &Frame {
        // The trail is read for its clause, that it is legal.
        let _ = self.monitor.trail();
        self.monitor.sent_at(i)
    }
}
