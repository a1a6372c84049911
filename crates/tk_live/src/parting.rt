//! The causes that end the loop over a hub, and what is to be done after each.

ghost use Rattle.std.specs.Prelude.{◌≡◌};
ghost use Rattle.tk_live.specs.Parting.{halts_of, hub_why, is_done_of, of_fault, of_turn};
ghost use Rattle.tk_live.specs.declared.parting.Parting.TheVariants.{NoMemory as OutOfMemory};

use tk_base::NoMemory;
use tk_hub::HubTurn;
use tk_serve::Why;
use tk_wire::NetFault;

/// Why the caller's loop over its hub ended.
#[derive(Clone, Copy, Debug, PartialEq, Eq)]
pub enum Parting {
    /// The final line is written, and all output is given.
    Finished,
    /// A worker ended before Stop.
    Alarmed,
    /// An admitted wire failed or ended too early.
    Failed,
    /// The next frame of a monitor is refused, or is none.
    Refused,
    /// A line was not written.
    WriteFailed,
    /// A call of the net failed.
    NetFailed,
    NoMemory,
}

/// The loop's end after a fault of the net.
impl From<NetFault> for Parting {
    ghost from_gives = { λ fault parting. parting ≡ of_fault fault };

    fn from(fault: NetFault) -> Parting {
        match fault {
            NetFault::Failed => Parting::NetFailed,
            NetFault::NoMemory => Parting::NoMemory,
        }
    }
}

impl From<NoMemory> for Parting {
    ghost from_gives = { λ _ parting. parting ≡ OutOfMemory };

    fn from(_error: NoMemory) -> Parting {
        Parting::NoMemory
    }
}

impl Parting {
    /// The loop's end after a turn, where it does not go on.
    pub fn after(turn: HubTurn) -> Option<Parting>
        ensures { result ≡ of_turn turn }
    {
        match turn {
            HubTurn::Quiet => None,
            HubTurn::More => None,
            HubTurn::Finished => Some(Parting::Finished),
            HubTurn::Failed => Some(Parting::Failed),
            HubTurn::Refused(..) => Some(Parting::Refused),
            HubTurn::Bad(..) => Some(Parting::Refused),
            HubTurn::WriteFailed => Some(Parting::WriteFailed),
            HubTurn::NoMemory => Some(Parting::NoMemory),
        }
    }

    /// The cause that it is for the run, beside those of the workers. A line that was not written is none, and told as it is.
    pub fn why(self) -> Option<Why>
        ensures { result ≡ hub_why self }
    {
        match self {
            Parting::WriteFailed => None,
            Parting::Finished => Some(Why::Stopped),
            Parting::Refused => Some(Why::Odd),
            Parting::NoMemory => Some(Why::NoMemory),
            Parting::Alarmed | Parting::Failed | Parting::NetFailed => Some(Why::Failed),
        }
    }

    /// Whether the run is done.
    pub fn is_done(self) -> bool
        ensures { result ≡ is_done_of self }
    {
        match self {
            Parting::Finished => true,
            Parting::Alarmed => false,
            Parting::Failed => false,
            Parting::Refused => false,
            Parting::WriteFailed => false,
            Parting::NetFailed => false,
            Parting::NoMemory => false,
        }
    }

    /// Whether the hub is halted then: its wires are not shut yet, and the run is not done.
    pub fn halts(self) -> bool
        ensures { result ≡ halts_of self }
    {
        match self {
            Parting::Finished => false,
            Parting::WriteFailed => false,
            Parting::Alarmed => true,
            Parting::Failed => true,
            Parting::Refused => true,
            Parting::NetFailed => true,
            Parting::NoMemory => true,
        }
    }
}
