//! The refusals of the coordinator, of frames and of retunes, and how they are printed.

ghost use Rattle.std.specs.Prelude.{◌≡◌};
ghost use Rattle.tk_journal.specs.declared.refusal.CoordRefusal.TheVariants.{NoMemory};

use std::error::Error;
use std::fmt;
use tk_base::{NoMemory, Obj};
use tk_frames::Kind;

/// Why the coordinator took no frame, in the order of its tests.
#[derive(Clone, Copy, Debug, PartialEq, Eq)]
pub enum CoordRefusal {
    /// Stop was sent.
    AfterStop,
    /// The kind is one that only a monitor takes.
    NotForCoordinator(Kind),
    /// The frame speaks of an Assign that was not sent yet.
    AheadOfSequence { at: u64, got: u64 },
    /// The round is not open, or does not wait for this monitor.
    NotAsked { round: u64 },
    /// The values are from before the last Assign.
    BehindSequence { at: u64, got: u64 },
    /// The monitor's Report stands since the last Assign.
    AfterReport { seq: u64 },
    /// The values are not over the objects that they must be over.
    WrongObjects,
    /// The value of this object is over 2^100 in size.
    TooGreatValue(Obj),
    /// The level of this failed object is not above the least member level.
    NotBroken(Obj),
    /// The border is above the least member level, or below -2^113.
    BadBorder { border: i128, least: i128 },
    /// The places are none of a monitor, or go back.
    BadCut,
    NoMemory,
}

impl fmt::Display for CoordRefusal {
    fn fmt<W: fmt::Write>(&self, f: &mut fmt::Formatter<W>) -> fmt::Result {
        f.write_str(match self {
            CoordRefusal::AfterStop => "stop was sent",
            CoordRefusal::NotForCoordinator(_) => "the frame is not for the coordinator",
            CoordRefusal::AheadOfSequence { .. } => "the frame is ahead of the assigns sent",
            CoordRefusal::NotAsked { .. } => "the round does not wait for the monitor",
            CoordRefusal::BehindSequence { .. } => "the values are from before the last assign",
            CoordRefusal::AfterReport { .. } => "a report stands since the last assign",
            CoordRefusal::WrongObjects => "the values are over the wrong objects",
            CoordRefusal::TooGreatValue(_) => "a value is too great",
            CoordRefusal::NotBroken(_) => "a failed object is not broken",
            CoordRefusal::BadBorder { .. } => "the border is out of its range",
            CoordRefusal::BadCut => "the places are wrong or go back",
            CoordRefusal::NoMemory => "out of memory",
        })
    }
}

impl From<NoMemory> for CoordRefusal {
    ghost from_gives = { λ _ e. e ≡ NoMemory };

    fn from(_error: NoMemory) -> CoordRefusal {
        CoordRefusal::NoMemory
    }
}

impl Error for CoordRefusal {}

/// Why the coordinator took no retune, in the order of its tests.
#[derive(Clone, Copy, Debug, PartialEq, Eq)]
pub enum RetuneRefusal {
    /// Stop was sent.
    AfterStop,
    /// A round is open.
    RoundOpen,
    /// k is 0, over 1,024 or over the number of objects.
    BadK,
    /// Epsilon is over 2^100.
    BadEpsilon,
    NoMemory,
}

impl fmt::Display for RetuneRefusal {
    fn fmt<W: fmt::Write>(&self, f: &mut fmt::Formatter<W>) -> fmt::Result {
        f.write_str(match self {
            RetuneRefusal::AfterStop => "stop was sent",
            RetuneRefusal::RoundOpen => "a round is open",
            RetuneRefusal::BadK => "bad k",
            RetuneRefusal::BadEpsilon => "bad epsilon",
            RetuneRefusal::NoMemory => "out of memory",
        })
    }
}

impl Error for RetuneRefusal {}
