//! The refusals of a monitor, in the order of its tests, and how they are printed.

use std::error::Error;
use std::fmt;
use tk_base::Obj;
use tk_frames::Kind;

/// Why a monitor does not take a frame: the first of these that holds.
#[derive(Clone, Copy, Debug, PartialEq, Eq)]
pub enum MonitorRefusal {
    /// Stop was taken.
    AfterStop,
    /// Only the coordinator takes such frames.
    NotForMonitor(Kind),
    /// An Assign whose number is not that of the Assigns taken plus 1.
    WrongSequence { has: u64, got: u64 },
    /// An Assign with no member, more than 1,024, or one past the catalogue.
    BadMembers,
    /// The first change of an Assign whose object is past the catalogue, or whose factor is over 2^112 in
    /// size.
    BadChange(Obj),
    /// A Collect before any Assign, for no object, for one past the catalogue, or not for all members.
    BadCollect,
    /// A Stop before the end was told under the present Assign.
    EarlyStop,
    /// No memory for the frame or its answer.
    NoMemory,
}

impl fmt::Display for MonitorRefusal {
    fn fmt<W: fmt::Write>(&self, f: &mut fmt::Formatter<W>) -> fmt::Result {
        match self {
            MonitorRefusal::AfterStop => f.write_str("a frame after stop"),
            MonitorRefusal::NotForMonitor(kind) => write!(f, "a {kind} is not for a monitor"),
            MonitorRefusal::WrongSequence { has, got } => {
                write!(f, "assign {got} after {has} of them")
            }
            MonitorRefusal::BadMembers => f.write_str("bad members"),
            MonitorRefusal::BadChange(obj) => write!(f, "bad factor of {obj}"),
            MonitorRefusal::BadCollect => f.write_str("bad collect"),
            MonitorRefusal::EarlyStop => f.write_str("stop before the end was told"),
            MonitorRefusal::NoMemory => f.write_str("out of memory"),
        }
    }
}

impl Error for MonitorRefusal {}
