ghost use Rattle.std.specs.Prelude.{◌≡◌};
ghost use Rattle.tk_host.specs.declared.coordinated.Coordinated.TheVariants.{NoMemory as OutOfMemory, WriteFault as Unwritten};

use std::alloc::AllocError;
use tk_base::NoMemory;
use tk_input::PutFailed;
use tk_wire::NetFault;

/// How the process of a coordinator ended.
#[derive(Clone, Copy, Debug, PartialEq, Eq)]
pub enum Coordinated {
    /// The final set is told and every Stop is given, or as many sessions have ended as were asked for.
    Done,
    /// A line was not written.
    WriteFault,
    /// There was no memory for what a session needs to begin, or for a line between sessions.
    NoMemory,
    /// The host failed to listen, to accept or to wait.
    LinkFault,
}

impl From<NoMemory> for Coordinated {
    ghost from_gives = { λ _ end. end ≡ OutOfMemory };

    fn from(_error: NoMemory) -> Coordinated {
        Coordinated::NoMemory
    }
}

impl From<AllocError> for Coordinated {
    ghost from_gives = { λ _ end. end ≡ OutOfMemory };

    fn from(_error: AllocError) -> Coordinated {
        Coordinated::NoMemory
    }
}

impl From<PutFailed> for Coordinated {
    ghost from_gives = { λ _ end. end ≡ Unwritten };

    fn from(_error: PutFailed) -> Coordinated {
        Coordinated::WriteFault
    }
}

impl From<NetFault> for Coordinated {
    ghost use Rattle.tk_host.specs.Over.{end_by};

    ghost from_gives = { λ fault end. end ≡ end_by fault };

    fn from(fault: NetFault) -> Coordinated {
        match fault {
            NetFault::Failed => Coordinated::LinkFault,
            NetFault::NoMemory => Coordinated::NoMemory,
        }
    }
}
