//! What logs are made of, and how it is printed.

use std::fmt;
use tk_base::Obj;

/// One entry of a log: by how much the value of an object changes.
#[derive(Clone, Copy, Debug, PartialEq, Eq)]
pub struct Change {
    pub obj: Obj,
    pub by: i128,
}

impl fmt::Display for Change {
    fn fmt<W: fmt::Write>(&self, f: &mut fmt::Formatter<W>) -> fmt::Result {
        write!(f, "{} by {}", self.obj, self.by)
    }
}
