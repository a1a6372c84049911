//! The statuses that commands end with, with their numbers, and what can be wrong with an input.

ghost use Rattle.std.specs.Prelude.{◌≡◌};
ghost use Rattle.tk_load.specs.Status.{number_of};

use std::alloc::{AllocError, AllocFailed};
use tk_base::{Mon, NoMemory, Obj};
use tk_story::Difference;
use tk_verify::TraceFault;

/// How a run ended.
#[derive(Debug, Drop, PartialEq)]
pub enum Status {
    /// The input was read to its end, and the final set was printed.
    Done,
    /// The words are not understood.
    Usage,
    /// A file of the words cannot be read.
    ReadFault {
        file: Vec<u8>,
    },
    /// The settings, a file or the logs together are refused. The file is empty where it is no file
    /// that is at fault, and the line is 0 where the fault has none.
    BadInput {
        file: Vec<u8>,
        line: u32,
        kind: InputKind,
    },
    /// The changes of an object at a monitor sum to more than 2^100 in size.
    TooGreat {
        mon: Mon,
        obj: Obj,
    },
    /// The output cannot be written.
    WriteFault,
    NoMemory,
    /// A link of a live run failed or ended, or its net failed.
    LinkFault,
    /// What was received on a link of a live run is not what was sent.
    LinkDiffers(Difference),
    /// A file is no trace of a legal run to its end, by the first fault that there is.
    BadTrace {
        file: Vec<u8>,
        fault: TraceFault,
    },
}

impl<T: Drop> From<AllocFailed<T>> for Status {
    ghost use Rattle.tk_load.specs.declared.status.Status.TheVariants.{NoMemory as OutOfMemory};

    ghost from_gives = { λ _ e. e ≡ OutOfMemory };

    fn from(_error: AllocFailed<T>) -> Status {
        Status::NoMemory
    }
}

impl From<AllocError> for Status {
    ghost use Rattle.tk_load.specs.declared.status.Status.TheVariants.{NoMemory as OutOfMemory};

    ghost from_gives = { λ _ e. e ≡ OutOfMemory };

    fn from(_error: AllocError) -> Status {
        Status::NoMemory
    }
}

impl From<NoMemory> for Status {
    ghost use Rattle.tk_load.specs.declared.status.Status.TheVariants.{NoMemory as OutOfMemory};

    ghost from_gives = { λ _ e. e ≡ OutOfMemory };

    fn from(_error: NoMemory) -> Status {
        Status::NoMemory
    }
}

/// What is wrong with an input.
#[derive(Clone, Copy, Debug, PartialEq, Eq)]
pub enum InputKind {
    Empty,
    TooMany,
    /// The file has over 64 MiB.
    TooLong,
    /// A line of a stream has over 65,536 bytes without its end.
    LineTooLong,
    BadRow,
    BadName,
    Repeated,
    UnknownName,
    BadNumber,
    MonitorGap(Mon),
    TooManyFeeders(Mon),
    TooManyUpdates,
    BadOrder,
    BadCount,
    BadK,
    BadEpsilon,
    BadWeight,
    BadWidth,
}

impl Status {
    /// The number with which the program ends.
    pub fn number(&self) -> u8
        ensures { result ≡ number_of self.now }
    {
        match self {
            Status::Done => 0,
            Status::Usage => 2,
            Status::ReadFault { .. } => 3,
            Status::BadInput { .. } => 4,
            Status::TooGreat { .. } => 5,
            Status::WriteFault => 6,
            Status::NoMemory => 7,
            Status::LinkFault => 8,
            Status::LinkDiffers(_) => 9,
            Status::BadTrace { .. } => 11,
        }
    }
}
