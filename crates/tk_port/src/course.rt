//! How a port stands after each turn, and what it answers once it is closed.

use crate::turn::Turn;
use tk_frames::BadFrame;
use tk_trail::MonitorRefusal;

/// Whether the end of a connection goes on, and why it does not.
#[derive(Clone, Copy, Debug, PartialEq, Eq)]
pub enum Course {
    Open,
    /// It was halted.
    Halted,
    /// The wire failed, or ended too early.
    Failed,
    /// The next frame is refused.
    Refused(MonitorRefusal),
    /// The next bytes are no frame.
    Bad(BadFrame),
}

impl Course {
    ghost use Rattle.std.specs.Prelude.{◌≡◌};
    ghost use Rattle.tk_port.specs.Port.{answer_of, course_of, halted_of};

    /// The course after a turn of a port that went on.
    pub fn after(turn: Turn) -> Course
        ensures { result ≡ course_of turn }
    {
        match turn {
            Turn::Quiet | Turn::More | Turn::Stopped | Turn::NoMemory => Course::Open,
            Turn::Failed => Course::Failed,
            Turn::Refused(why) => Course::Refused(why),
            Turn::Bad(fault) => Course::Bad(fault),
        }
    }

    /// What a turn answers on a course that is closed.
    pub fn answer(self) -> Option<Turn>
        ensures { result ≡ answer_of self }
    {
        match self {
            Course::Open | Course::Halted => None,
            Course::Failed => Some(Turn::Failed),
            Course::Refused(why) => Some(Turn::Refused(why)),
            Course::Bad(fault) => Some(Turn::Bad(fault)),
        }
    }

    /// The course once its port is halted.
    pub fn halted(self) -> Course
        ensures { result ≡ halted_of self }
    {
        match self {
            Course::Open => Course::Halted,
            course => course,
        }
    }
}
