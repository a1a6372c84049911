//! How a hub stands after each turn: what the turn answered, and whether and why the hub is closed.

use tk_base::Mon;
use tk_coord::CoordRefusal;
use tk_frames::BadFrame;

/// What a turn of a hub answers.
#[derive(Clone, Copy, Debug, PartialEq, Eq)]
pub enum HubTurn {
    /// Every whole frame was taken, and nothing more waits.
    Quiet,
    /// Some connection gave 64 pieces; there may be more.
    More,
    /// The final line is written, and all output is given.
    Finished,
    /// An admitted wire failed, or ended before Stop was given to it.
    Failed,
    /// The next frame of this monitor is refused, for another cause than memory.
    Refused(Mon, CoordRefusal),
    /// The next bytes of this monitor are no frame.
    Bad(Mon, BadFrame),
    /// A line was not written.
    WriteFailed,
    NoMemory,
}

impl HubTurn {
    ghost use Rattle.std.specs.Prelude.{◌≡◌};
    ghost use Rattle.tk_hub.specs.Turn.{goes_on as can_go_on, joined as join};

    /// Whether nothing ended the turn but that no frame is whole.
    pub fn goes_on(self) -> bool
        ensures { result ≡ can_go_on self }
    {
        match self {
            HubTurn::Quiet => true,
            HubTurn::More => true,
            HubTurn::Finished => false,
            HubTurn::Failed => false,
            HubTurn::Refused(..) => false,
            HubTurn::Bad(..) => false,
            HubTurn::WriteFailed => false,
            HubTurn::NoMemory => false,
        }
    }

    /// What a turn answers that has answered this so far, and then goes on or ends with the next.
    pub fn joined(self, next: HubTurn) -> HubTurn
        ensures { result ≡ join self next }
    {
        match next {
            HubTurn::Quiet => self,
            next => next,
        }
    }
}

/// Whether a hub goes on, and why it does not.
#[derive(Clone, Copy, Debug, PartialEq, Eq)]
pub enum Course {
    Open,
    /// It was halted.
    Halted,
    Failed,
    Refused(Mon, CoordRefusal),
    Bad(Mon, BadFrame),
    WriteFailed,
}

impl Course {
    ghost use Rattle.std.specs.Prelude.{◌≡◌};
    ghost use Rattle.tk_hub.specs.Turn.{answer_of, course_of, halted_of, is_open as is_on};

    /// The course after a turn of a hub that went on.
    pub fn after(turn: HubTurn) -> Course
        ensures { result ≡ course_of turn }
    {
        match turn {
            HubTurn::Quiet => Course::Open,
            HubTurn::More => Course::Open,
            HubTurn::Finished => Course::Open,
            HubTurn::NoMemory => Course::Open,
            HubTurn::Failed => Course::Failed,
            HubTurn::Refused(mon, why) => Course::Refused(mon, why),
            HubTurn::Bad(mon, fault) => Course::Bad(mon, fault),
            HubTurn::WriteFailed => Course::WriteFailed,
        }
    }

    /// What a turn answers on a course that is closed.
    pub fn answer(self) -> Option<HubTurn>
        ensures { result ≡ answer_of self }
    {
        match self {
            Course::Open => None,
            Course::Halted => None,
            Course::Failed => Some(HubTurn::Failed),
            Course::Refused(mon, why) => Some(HubTurn::Refused(mon, why)),
            Course::Bad(mon, fault) => Some(HubTurn::Bad(mon, fault)),
            Course::WriteFailed => Some(HubTurn::WriteFailed),
        }
    }

    /// The course once its hub is halted.
    pub fn halted(self) -> Course
        ensures { result ≡ halted_of self }
    {
        match self {
            Course::Open => Course::Halted,
            course => course,
        }
    }

    /// Whether the hub goes on.
    pub fn is_open(self) -> bool
        ensures { result ≡ is_on self }
    {
        match self {
            Course::Open => true,
            Course::Halted => false,
            Course::Failed => false,
            Course::Refused(..) => false,
            Course::Bad(..) => false,
            Course::WriteFailed => false,
        }
    }
}
