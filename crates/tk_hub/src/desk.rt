//! The coordinator as an actor, whose frames the links of a hub carry.

use tk_base::Mon;
use tk_coord::{CoordRefusal, Coordinator};
use tk_end::{Actor, Declined};
use tk_frames::Frame;

/// The coordinator, whose peers are the monitors.
#[derive(Drop)]
pub struct Desk {
    pub coordinator: Coordinator,
}

impl Actor for Desk {
    type Refusal = CoordRefusal;

    ghost use Rattle.tk_hub.specs.Desk.{IsDesk, heard_from, said_to, is_deaf, refuses, takes};

    ghost IsPeer = { IsDesk };

    ghost heard = { heard_from };

    ghost said = { said_to };

    ghost is_done = { is_deaf };

    ghost refusal_of = { refuses };

    ghost after = { takes };

    fn take(&mut self, peer: Mon, frame: Frame) -> Result<(), Declined<CoordRefusal>> {
        match self.coordinator.take(peer, frame) {
            Ok(()) => Ok(()),
            Err((CoordRefusal::NoMemory, frame)) => Err(Declined::NoMemory(frame)),
            Err((why, frame)) => Err(Declined::Refused(why, frame)),
        }
    }

    fn done(&self, peer: Mon) -> bool {
        false
    }

    fn count(&self, peer: Mon) -> usize {
        self.coordinator.sent(peer)
    }

    fn frame_at(&self, peer: Mon, i: usize) -> &Frame {
        // The journal is read for its clauses, that it is legal and that its frames are of its monitors.
        let _ = self.coordinator.journal();
        self.coordinator.sent_at(peer, i)
    }
}
