//! The numbers by which objects, monitors and feeders go, and how they are printed.

ghost use Rattle.std.specs.Prelude.{Some, ◌++◌, codes};
ghost use Rattle.std.specs.Fmt.{decimal};

use std::fmt;

/// An object of the catalogue, by its place there, from 1.
#[derive(Clone, Copy, Debug, PartialEq, Eq, PartialOrd, Ord, Hash)]
pub struct Obj(pub u32);

/// A monitor, by its number, from 1.
#[derive(Clone, Copy, Debug, PartialEq, Eq, PartialOrd, Ord, Hash)]
pub struct Mon(pub u32);

/// A feeder of a monitor, by its number there, from 1.
#[derive(Clone, Copy, Debug, PartialEq, Eq, PartialOrd, Ord, Hash)]
pub struct Feeder(pub u32);

impl fmt::Display for Obj {
    ghost output = { λ id. Some (codes "object " ++ decimal id.0) };

    fn fmt<W: fmt::Write>(&self, f: &mut fmt::Formatter<W>) -> fmt::Result {
        write!(f, "object {}", self.0)
    }
}

impl fmt::Display for Mon {
    ghost output = { λ id. Some (codes "monitor " ++ decimal id.0) };

    fn fmt<W: fmt::Write>(&self, f: &mut fmt::Formatter<W>) -> fmt::Result {
        write!(f, "monitor {}", self.0)
    }
}

impl fmt::Display for Feeder {
    ghost output = { λ id. Some (codes "feeder " ++ decimal id.0) };

    fn fmt<W: fmt::Write>(&self, f: &mut fmt::Formatter<W>) -> fmt::Result {
        write!(f, "feeder {}", self.0)
    }
}
