//! What the check of a trace can find, in the bytes or in the record that they hold, and how it is printed.

ghost use Rattle.std.specs.Prelude.{◌≡◌};
ghost use Rattle.tk_verify.specs.Faulty.{as_found};

use crate::finding::Finding;
use std::error::Error;
use std::fmt;
use tk_base::Mon;
use tk_story::Direction;

/// Why bytes are no trace of a run to its end, the first of these that is.
#[derive(Clone, Copy, Debug, PartialEq, Eq)]
pub enum TraceFault {
    /// They are no trace of any run.
    NotATrace,
    /// Parts 1 to m are the trails, and part m + 1 is the journal: the first that is not legal. Up to this place, from 0,
    /// it is a front of a legal one, and no further; at its length an entry is missing.
    NotLegal {
        part: u32,
        place: u64,
    },
    /// At this place, from 0, of a link something else was received than what was sent.
    Links {
        mon: Mon,
        direction: Direction,
        place: u64,
    },
    /// There is no publication, or the last one is not the final one.
    NotFinal,
    NoMemory,
}

/// The way that a link goes, in a word.
fn way(direction: Direction) -> &'static str {
    match direction {
        Direction::UpLink => "up",
        Direction::DownLink => "down",
    }
}

impl fmt::Display for TraceFault {
    fn fmt<W: fmt::Write>(&self, f: &mut fmt::Formatter<W>) -> fmt::Result {
        match self {
            TraceFault::NotATrace => f.write_str("not a trace"),
            TraceFault::NotLegal { part, place } => write!(f, "part {part}: not legal at {place}"),
            TraceFault::Links {
                mon,
                direction,
                place,
            } => write!(f, "{mon}: the link {} differs at {place}", way(*direction)),
            TraceFault::NotFinal => f.write_str("no final publication"),
            TraceFault::NoMemory => f.write_str("out of memory"),
        }
    }
}

impl Error for TraceFault {}

impl From<Finding> for TraceFault {
    ghost from_gives = { λ finding e. e ≡ as_found finding };

    fn from(finding: Finding) -> TraceFault {
        match finding {
            Finding::NotLegal { part, place } => TraceFault::NotLegal { part, place },
            Finding::Links {
                mon,
                direction,
                place,
            } => TraceFault::Links {
                mon,
                direction,
                place,
            },
            Finding::NotFinal => TraceFault::NotFinal,
            Finding::NoMemory => TraceFault::NoMemory,
        }
    }
}
