//! Streams by their names, and why one is not opened.

ghost use Rattle.std.specs.Prelude.{◌≡◌, ℕ, List, true, IfOk};

use crate::source::Source;
use std::error::Error;
use std::fmt;
use std::marker::Send;

/// Why a stream was not opened.
#[derive(Clone, Copy, Debug, PartialEq, Eq)]
pub enum OpenFault {
    Failed,
    NoMemory,
}

impl fmt::Display for OpenFault {
    fn fmt<W: fmt::Write>(&self, f: &mut fmt::Formatter<W>) -> fmt::Result {
        f.write_str(match self {
            OpenFault::Failed => "cannot be opened",
            OpenFault::NoMemory => "out of memory",
        })
    }
}

impl Error for OpenFault {}

/// Streams by their names. The name `-` stands for standard input.
pub trait Streams {
    type Source: Source + Send + Drop + 'static;

    /// What the stream of a name will give, where its source tells.
    ghost content: { Self → List ℕ → List ℕ };

    /// Opens a stream, which may be moved into another thread. It may wait.
    fn open(&mut self, name: &str) -> Result<Self::Source, OpenFault>
        ensures content { IfOk result (λ s.
            Self.Source.tells ≡ true → Self.Source.content s ≡ content self.old name.now) }
        ensures faults { IfOk result (λ s. Self.Source.fault_count s ≡ 0) }
        ensures kept { (other : List ℕ) → content self.new other ≡ content self.old other };
}
