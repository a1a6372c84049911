//! What can keep bytes from being read as a trace, and what a check of the trace calls it.

ghost use Rattle.std.specs.Prelude.{◌≡◌};
ghost use Rattle.tk_trace.specs.Checked.{as_unread};
ghost use Rattle.tk_trace.specs.declared.fault.ParseFault.TheVariants.{NoMemory as Memory};

use std::alloc::{AllocError, AllocFailed};
use std::error::Error;
use std::fmt;
use tk_base::NoMemory;
use tk_verify::TraceFault;

/// Why bytes were not read as a trace.
#[derive(Clone, Copy, Debug, PartialEq, Eq)]
pub enum ParseFault {
    /// They are no trace of any run.
    NotATrace,
    NoMemory,
}

impl fmt::Display for ParseFault {
    fn fmt<W: fmt::Write>(&self, f: &mut fmt::Formatter<W>) -> fmt::Result {
        f.write_str(match self {
            ParseFault::NotATrace => "not a trace",
            ParseFault::NoMemory => "out of memory",
        })
    }
}

impl Error for ParseFault {}

impl From<NoMemory> for ParseFault {
    ghost from_gives = { λ _ e. e ≡ Memory };

    fn from(_error: NoMemory) -> ParseFault {
        ParseFault::NoMemory
    }
}

impl From<AllocError> for ParseFault {
    ghost from_gives = { λ _ e. e ≡ Memory };

    fn from(_error: AllocError) -> ParseFault {
        ParseFault::NoMemory
    }
}

impl<T: Drop> From<AllocFailed<T>> for ParseFault {
    ghost from_gives = { λ _ e. e ≡ Memory };

    fn from(_error: AllocFailed<T>) -> ParseFault {
        ParseFault::NoMemory
    }
}

impl From<ParseFault> for TraceFault {
    ghost from_gives = { λ fault e. e ≡ as_unread fault };

    fn from(fault: ParseFault) -> TraceFault {
        match fault {
            ParseFault::NotATrace => TraceFault::NotATrace,
            ParseFault::NoMemory => TraceFault::NoMemory,
        }
    }
}
