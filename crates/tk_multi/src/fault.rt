//! What keeps several queries from being run, and how that is printed.

ghost use Rattle.std.specs.Prelude.{◌≡◌};
ghost use Rattle.tk_multi.specs.declared.fault.MultiFault.TheVariants.{NoMemory as OutOfMemory};

use std::alloc::{AllocError, AllocFailed};
use std::error::Error;
use std::fmt;
use tk_base::{NoMemory, SettingFault};

/// Why some queries do not run.
#[derive(Clone, Copy, Debug, PartialEq, Eq)]
pub enum MultiFault {
    /// The settings of a query, by its number from 1, are refused.
    Bad { query: u32, fault: SettingFault },
    /// The logs of all queries together have over 4,000,000 changes.
    TooManyUpdates,
    NoMemory,
}

impl fmt::Display for MultiFault {
    fn fmt<W: fmt::Write>(&self, f: &mut fmt::Formatter<W>) -> fmt::Result {
        match self {
            MultiFault::Bad { query, fault } => write!(f, "query {query}: {fault}"),
            MultiFault::TooManyUpdates => f.write_str("too many changes"),
            MultiFault::NoMemory => f.write_str("out of memory"),
        }
    }
}

impl Error for MultiFault {}

impl From<AllocError> for MultiFault {
    ghost from_gives = { λ _ e. e ≡ OutOfMemory };

    fn from(_error: AllocError) -> MultiFault {
        MultiFault::NoMemory
    }
}

impl<T: Drop> From<AllocFailed<T>> for MultiFault {
    ghost from_gives = { λ _ e. e ≡ OutOfMemory };

    fn from(_error: AllocFailed<T>) -> MultiFault {
        MultiFault::NoMemory
    }
}

impl From<NoMemory> for MultiFault {
    ghost from_gives = { λ _ e. e ≡ OutOfMemory };

    fn from(_error: NoMemory) -> MultiFault {
        MultiFault::NoMemory
    }
}
