//! Why a line is no record.

use std::error::Error;
use std::fmt;

/// Why a line is no record.
#[derive(Clone, Copy, Debug, PartialEq, Eq)]
pub enum LineFault {
    TooLong,
    BadRow,
    UnknownName,
    BadNumber,
}

impl fmt::Display for LineFault {
    fn fmt<W: fmt::Write>(&self, f: &mut fmt::Formatter<W>) -> fmt::Result {
        f.write_str(match self {
            LineFault::TooLong => "the line is too long",
            LineFault::BadRow => "wrong number of fields",
            LineFault::UnknownName => "unknown object",
            LineFault::BadNumber => "bad number",
        })
    }
}

impl Error for LineFault {}
