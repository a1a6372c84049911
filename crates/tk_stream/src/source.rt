//! What is asked of the bytes of one stream.

ghost use Rattle.std.specs.Prelude.{◌≡◌, ℕ, ◌<◌, ◌≤◌, List, length, Bool, true, IfOk};
ghost use Rattle.tk_stream.specs.Source.{Gives, read_faults};

use std::error::Error;
use std::fmt;

/// Some bytes could not be read.
#[derive(Clone, Copy, Debug, PartialEq, Eq)]
pub struct ReadFailed;

impl fmt::Display for ReadFailed {
    fn fmt<W: fmt::Write>(&self, f: &mut fmt::Formatter<W>) -> fmt::Result {
        f.write_str("cannot be read")
    }
}

impl Error for ReadFailed {}

/// The bytes of one stream, in order.
pub trait Source {
    /// Whether sources of this type tell their bytes. If not, `content` means nothing.
    ghost tells: { Bool };

    /// The bytes that are still to come.
    ghost content: { Self → List ℕ };

    /// How many reads failed.
    ghost fault_count: { Self → ℕ };

    /// How many reads failed.
    fn faults(&self) -> u64
        ensures { result ≡ fault_count self.now };

    /// Reads bytes to the front of a slice that is not empty, and says how many: none at the end alone. It may wait for ever.
    fn read(&mut self, room: &mut [u8]) -> Result<usize, ReadFailed>
        requires { 0 < length room.old }
        ensures fits { IfOk result (λ n. n ≤ length room.old) }
        ensures told { tells ≡ true → Gives result room.new (content self.old) (content self.new) }
        ensures counted { fault_count self.new ≡ read_faults result (fault_count self.old) };
}
