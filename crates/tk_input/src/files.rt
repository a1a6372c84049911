//! What a run asks of the files that it reads, and why one is not read.

ghost use Rattle.std.specs.Prelude.{◌≡◌, ◌≢◌, ℕ, ◌<◌, ◌≤◌, max, List, length, Option, IfOk, IfSome, IsErrOf};
ghost use Rattle.tk_input.specs.MapFiles.{faults_after};

use std::alloc::Global;
use std::error::Error;
use std::fmt;

/// The most bytes that a file may have.
pub const MAX_LENGTH: usize = 67_108_864;

/// Why a file was not read.
#[derive(Clone, Copy, Debug, PartialEq, Eq)]
pub enum FileFault {
    Failed,
    TooLong,
    NoMemory,
}

impl fmt::Display for FileFault {
    fn fmt<W: fmt::Write>(&self, f: &mut fmt::Formatter<W>) -> fmt::Result {
        f.write_str(match self {
            FileFault::Failed => "cannot be read",
            FileFault::TooLong => "the file is too long",
            FileFault::NoMemory => "out of memory",
        })
    }
}

impl Error for FileFault {}

/// Files by their names, each of which is read at once.
pub trait Files {
    /// What stands under a name, where that is told.
    ghost content: { Self → List ℕ → Option (List ℕ) };

    /// How many reads of a name failed.
    ghost fault_count: { Self → List ℕ → ℕ };

    /// The most bytes that one read of a name has taken.
    ghost most_taken: { Self → List ℕ → ℕ };

    /// How many reads of this name failed.
    fn faults(&self, name: &str) -> u64
        ensures { result ≡ fault_count self.now name.now };

    /// The most bytes that one read of this name has taken.
    fn longest(&self, name: &str) -> u64
        ensures { result ≡ most_taken self.now name.now };

    /// An implementation takes the room for what it counts of the name before it reads.
    fn read_all(&mut self, alloc: Global, name: &str) -> Result<Vec<u8>, FileFault>
        // What is told of a name is what a read of it gives, and no read changes what is told.
        ensures content { IfOk result (λ v. IfSome (content self.old name.now) (λ told. v.items ≡ told)) }
        ensures told { (other : List ℕ) → content self.new other ≡ content self.old other }
        // Where the content is longer than the limit and the read does not fail, it is too long.
        ensures short { IfOk result (λ v. length v.items ≤ 67108864) }
        ensures too_long { IsErrOf result FileFault.TooLong
            → IfSome (content self.old name.now) (λ told. 67108864 < length told) }
        ensures too_much { IsErrOf result FileFault.TooLong → 67108864 < most_taken self.new name.now }
        // A failed read is counted, and no other is. No count falls, and each is of its own name.
        ensures counted { fault_count self.new name.now ≡ faults_after result (fault_count self.old name.now) }
        ensures kept_faults { fault_count self.old name.now ≤ fault_count self.new name.now }
        ensures other_faults { (other : List ℕ) → other ≢ name.now → fault_count self.new other ≡ fault_count self.old other }
        // So is the most that one read took, which is no more than there is.
        ensures taken { IfOk result (λ v. length v.items ≤ most_taken self.new name.now) }
        ensures kept_taken { most_taken self.old name.now ≤ most_taken self.new name.now }
        ensures no_more { IfSome (content self.old name.now)
            (λ told. most_taken self.new name.now ≤ max (most_taken self.old name.now) (length told)) }
        ensures other_taken { (other : List ℕ) → other ≢ name.now → most_taken self.new other ≡ most_taken self.old other };
}
