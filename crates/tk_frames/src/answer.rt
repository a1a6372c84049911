//! What the reading of a frame answers, and the faults that bytes can have.

use crate::frame::Frame;
use crate::kind::Kind;
use std::error::Error;
use std::fmt;

/// What stands at the front of some bytes.
#[derive(Debug, Drop, PartialEq)]
pub enum Next {
    /// A frame, and how many bytes it takes, its four bytes of length included.
    Whole(Frame, usize),
    /// Less than a frame: more bytes are awaited.
    Part,
    /// No frame, whatever follows.
    Bad(BadFrame),
}

/// Why bytes are no frame, whatever follows them.
#[derive(Clone, Copy, Debug, PartialEq, Eq)]
pub enum BadFrame {
    /// The payload would have no byte, or over 2,097,152.
    BadLength { length: u32 },
    /// The payload begins with a byte that is no kind's.
    BadKind { kind: u8 },
    /// The payload is not of its kind's form.
    BadFields { kind: Kind },
}

impl fmt::Display for BadFrame {
    fn fmt<W: fmt::Write>(&self, f: &mut fmt::Formatter<W>) -> fmt::Result {
        match self {
            BadFrame::BadLength { length } => write!(f, "a payload of {} bytes", length),
            BadFrame::BadKind { kind } => write!(f, "kind {} is not known", kind),
            BadFrame::BadFields { kind } => write!(f, "the fields of {} are malformed", kind),
        }
    }
}

impl Error for BadFrame {}
