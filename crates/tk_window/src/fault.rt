//! What keeps a log in ticks from being expanded, and how that is printed.

ghost use Rattle.std.specs.Prelude.{◌≡◌};
ghost use Rattle.tk_window.specs.declared.fault.ExpandFault.TheVariants.{NoMemory as OutOfMemory};

use std::alloc::{AllocError, AllocFailed};
use std::error::Error;
use std::fmt;
use tk_base::NoMemory;

/// Why a log has no expanded one.
#[derive(Clone, Copy, Debug, PartialEq, Eq)]
pub enum ExpandFault {
    /// It would have so many changes.
    TooLong { length: u64 },
    NoMemory,
}

impl fmt::Display for ExpandFault {
    fn fmt<W: fmt::Write>(&self, f: &mut fmt::Formatter<W>) -> fmt::Result {
        match self {
            ExpandFault::TooLong { length } => write!(f, "{length} changes are too many"),
            ExpandFault::NoMemory => f.write_str("out of memory"),
        }
    }
}

impl Error for ExpandFault {}

impl From<AllocError> for ExpandFault {
    ghost from_gives = { λ _ e. e ≡ OutOfMemory };

    fn from(_error: AllocError) -> ExpandFault {
        ExpandFault::NoMemory
    }
}

impl<T: Drop> From<AllocFailed<T>> for ExpandFault {
    ghost from_gives = { λ _ e. e ≡ OutOfMemory };

    fn from(_error: AllocFailed<T>) -> ExpandFault {
        ExpandFault::NoMemory
    }
}

impl From<NoMemory> for ExpandFault {
    ghost from_gives = { λ _ e. e ≡ OutOfMemory };

    fn from(_error: NoMemory) -> ExpandFault {
        ExpandFault::NoMemory
    }
}
