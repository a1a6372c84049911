//! What can keep a frame from being written as bytes.

ghost use Rattle.std.specs.Prelude.{◌≡◌};
ghost use Rattle.tk_frames.specs.declared.fault.EncodeFault.TheVariants.{NoMemory as Memory};

use std::alloc::AllocError;
use std::error::Error;
use std::fmt;
use tk_base::NoMemory;

/// Why a frame was not written.
#[derive(Clone, Copy, Debug, PartialEq, Eq)]
pub enum EncodeFault {
    /// A Hello in a version other than 1 and 2, or of a monitor outside 1 to 64.
    BadHello,
    /// The payload would have over 2,097,152 bytes.
    TooLong { length: u64 },
    NoMemory,
}

impl fmt::Display for EncodeFault {
    fn fmt<W: fmt::Write>(&self, f: &mut fmt::Formatter<W>) -> fmt::Result {
        match self {
            EncodeFault::BadHello => f.write_str("the hello names no version or no monitor"),
            EncodeFault::TooLong { length } => write!(f, "a payload of {} bytes", length),
            EncodeFault::NoMemory => f.write_str("out of memory"),
        }
    }
}

impl Error for EncodeFault {}

impl From<AllocError> for EncodeFault {
    ghost from_gives = { λ _ e. e ≡ Memory };

    fn from(_error: AllocError) -> EncodeFault {
        EncodeFault::NoMemory
    }
}

impl From<NoMemory> for EncodeFault {
    ghost from_gives = { λ _ e. e ≡ Memory };

    fn from(_error: NoMemory) -> EncodeFault {
        EncodeFault::NoMemory
    }
}
