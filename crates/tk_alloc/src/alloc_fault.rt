//! What keeps a short or a full round from a reallocation, and how that is printed.

ghost use Rattle.std.specs.Prelude.{◌≡◌};
ghost use Rattle.tk_alloc.specs.declared.alloc_fault.AllocFault.TheVariants.{NoMemory as OutOfMemory};

use std::error::Error;
use std::fmt;
use tk_base::{NoMemory, Obj};

/// Why a short or a full round made no reallocation.
#[derive(Clone, Copy, Debug, PartialEq, Eq)]
pub enum AllocFault {
    /// The first new factor that is past 2^112 in size: of the least object, and for it at the least node.
    /// The coordinator is node 0.
    PastLimit { obj: Obj, node: u32, factor: i128 },
    NoMemory,
}

impl fmt::Display for AllocFault {
    fn fmt<W: fmt::Write>(&self, f: &mut fmt::Formatter<W>) -> fmt::Result {
        match self {
            AllocFault::PastLimit { obj, node, .. } => {
                write!(f, "{obj}: the new factor at node {node} is past its limit")
            }
            AllocFault::NoMemory => f.write_str("out of memory"),
        }
    }
}

impl Error for AllocFault {}

impl From<NoMemory> for AllocFault {
    ghost from_gives = { λ _ e. e ≡ OutOfMemory };

    fn from(_error: NoMemory) -> AllocFault {
        AllocFault::NoMemory
    }
}
