//! What a run asks of the output that it writes to.

ghost use Rattle.std.specs.Prelude.{◌≡◌, ℕ, List, Option, OnOk, OnErr};
ghost use Rattle.tk_input.specs.Files.{HasRisen};
ghost use Rattle.tk_input.specs.Sink.{Grows, GrowsByFront, put_faults};

use std::error::Error;
use std::fmt;

/// Some bytes could not be written.
#[derive(Clone, Copy, Debug, PartialEq, Eq)]
pub struct PutFailed;

impl fmt::Display for PutFailed {
    fn fmt<W: fmt::Write>(&self, f: &mut fmt::Formatter<W>) -> fmt::Result {
        f.write_str("the output cannot be written")
    }
}

impl Error for PutFailed {}

/// Where bytes are written to, one after the other.
pub trait Sink {
    /// The bytes that it was given, where they are told.
    ghost written: { Self → Option (List ℕ) };

    /// How many puts failed.
    ghost fault_count: { Self → ℕ };

    /// How many puts failed.
    fn faults(&self) -> u64
        ensures { result ≡ fault_count self.now };

    /// Takes no memory.
    fn put(&mut self, bytes: &[u8]) -> Result<(), PutFailed>
        ensures ok { OnOk result (Grows (written self.old) (written self.new) bytes.now) }
        ensures err { OnErr result (GrowsByFront (written self.old) (written self.new) bytes.now) }
        ensures failed { OnErr result (HasRisen (fault_count self.old) (fault_count self.new)) }
        ensures counted { fault_count self.new ≡ put_faults result (fault_count self.old) };
}
