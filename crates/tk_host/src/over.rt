ghost use Rattle.std.specs.Prelude.{◌≡◌};
ghost use Rattle.tk_host.specs.declared.cause.Cause.TheVariants.{Memory as Wanting};
ghost use Rattle.tk_host.specs.declared.over.Over.TheVariants.{Ended as EndedBy, HostFailed as Unhosted, WriteFailed as Unwritten};

use crate::cause::Cause;
use std::alloc::AllocError;
use tk_base::NoMemory;
use tk_input::PutFailed;
use tk_wire::NetFault;

/// How a session was left.
#[derive(Clone, Copy, Debug, PartialEq, Eq)]
pub enum Over {
    /// The final set is told, and every Stop is given.
    Finished,
    /// Another session follows.
    Ended(Cause),
    /// A call of the host failed.
    HostFailed,
    /// A line was not written.
    WriteFailed,
}

impl From<NoMemory> for Over {
    ghost from_gives = { λ _ over. over ≡ EndedBy Wanting };

    fn from(_error: NoMemory) -> Over {
        Over::Ended(Cause::Memory)
    }
}

impl From<AllocError> for Over {
    ghost from_gives = { λ _ over. over ≡ EndedBy Wanting };

    fn from(_error: AllocError) -> Over {
        Over::Ended(Cause::Memory)
    }
}

impl From<PutFailed> for Over {
    ghost from_gives = { λ _ over. over ≡ Unwritten };

    fn from(_error: PutFailed) -> Over {
        Over::WriteFailed
    }
}

impl From<NetFault> for Over {
    ghost use Rattle.tk_host.specs.Over.{over_by};

    ghost from_gives = { λ fault over. over ≡ over_by fault };

    fn from(fault: NetFault) -> Over {
        match fault {
            NetFault::Failed => Over::HostFailed,
            NetFault::NoMemory => Over::Ended(Cause::Memory),
        }
    }
}
