ghost use Rattle.std.specs.Prelude.{◌≡◌, ◌<◌, ℕ, Bool, true, false, IfOk, IfSome, Some, None};
ghost use Rattle.tk_wire.specs.Net.{NetState, Accepts, IsNew, called, closed, connected, faults_after, given_back, knocking_connected, listened, rest_given_back};

use crate::wire::Wire;
use std::error::Error;
use std::fmt;
use std::marker::{Send, Sync};

/// Why a call of a net or of a rest did not do its work.
#[derive(Clone, Copy, Debug, PartialEq, Eq)]
pub enum NetFault {
    Failed,
    NoMemory,
}

impl fmt::Display for NetFault {
    fn fmt<W: fmt::Write>(&self, f: &mut fmt::Formatter<W>) -> fmt::Result {
        f.write_str(match self {
            NetFault::Failed => "the network failed",
            NetFault::NoMemory => "out of memory",
        })
    }
}

impl Error for NetFault {}

/// How one who reads a link waits until something may have come.
pub trait Rest {
    /// How many calls failed.
    ghost fault_count: { Self → ℕ };

    /// How many calls failed.
    fn faults(&self) -> u64
        ensures { result ≡ fault_count self.now };

    /// Returns after readiness, a ring, or a twentieth of a second. Nothing is promised of it.
    fn rest(&mut self) -> Result<(), NetFault>
        ensures counted { fault_count self.new ≡ faults_after result (fault_count self.old) };
}

/// Wakes the one who waits in the rest that came with it.
pub trait Bell {
    /// Ends that rest, or the next one where nobody waits. Nothing is promised of it.
    fn ring(&self);
}

/// Makes links, and takes them back with their counts.
pub trait Net {
    type Link: Wire + Send + Drop;

    type Rest: Rest + Send + Drop;

    type Bell: Bell + Send + Sync + Drop;

    /// Whether it listens, its links, its faults and the bytes taken.
    ghost state: { Self → NetState };

    /// Whether nets of this type tell how many connections wait. If not, `knocking` means nothing.
    ghost tells_knocking: { Bool };

    /// How many connections wait to be accepted.
    ghost knocking: { Self → ℕ };

    /// How many calls failed, and how many links and rests came back with a fault or an end.
    fn faults(&self) -> u64
        ensures { result ≡ (state self.now).faults };

    /// How many bytes were taken from the links that came back.
    fn taken(&self) -> u64
        ensures { result ≡ (state self.now).taken };

    /// Opens the door at which `connect` knocks.
    fn listen(&mut self) -> Result<(), NetFault>
        requires { (state self.old).listens ≡ false }
        ensures state { state self.new ≡ listened result (state self.old) }
        ensures knocking { tells_knocking ≡ true → knocking self.new ≡ knocking self.old };

    /// A link to the door, and the rest and the bell of the one who reads it.
    fn connect(&mut self) -> Result<(Self::Link, Self::Rest, Self::Bell), NetFault>
        requires listens { (state self.old).listens ≡ true }
        requires links { (state self.old).links < 64 }
        ensures link { IfOk result (λ made. IsNew Self.Link.tells (Self.Link.traffic made.0) (Self.Link.counts made.0)) }
        ensures rest { IfOk result (λ made. Self.Rest.fault_count made.1 ≡ 0) }
        ensures state { state self.new ≡ connected result (state self.old) }
        ensures knocking { tells_knocking ≡ true → knocking self.new ≡ knocking_connected result (knocking self.old) };

    /// The link to a connection that waits, if one does.
    fn accept(&mut self) -> Result<Option<Self::Link>, NetFault>
        requires { (state self.old).listens ≡ true }
        ensures link { IfOk result (λ got. IfSome got (λ link.
            IsNew Self.Link.tells (Self.Link.traffic link) (Self.Link.counts link))) }
        ensures state { state self.new ≡ called result (state self.old) }
        ensures knocking { tells_knocking ≡ true → Accepts result (knocking self.old) (knocking self.new) };

    /// Returns after readiness, a ring, or a twentieth of a second. Nothing is promised of it.
    fn wait(&mut self) -> Result<(), NetFault>
        requires { (state self.old).listens ≡ true }
        ensures state { state self.new ≡ called result (state self.old) }
        ensures knocking { tells_knocking ≡ true → knocking self.new ≡ knocking self.old };

    /// Takes the door down, without memory. A connection that waits to be accepted ends, as its other end is told.
    fn close(&mut self)
        ensures state { state self.new ≡ closed (state self.old) }
        ensures knocking { tells_knocking ≡ true → knocking self.new ≡ 0 };

    /// Takes a link back, without memory.
    fn back(&mut self, link: Self::Link)
        ensures state { state self.new ≡ given_back (Self.Link.counts link) (state self.old) }
        ensures knocking { tells_knocking ≡ true → knocking self.new ≡ knocking self.old };

    /// Takes a rest back, without memory.
    fn back_rest(&mut self, rest: Self::Rest)
        ensures state { state self.new ≡ rest_given_back (Self.Rest.fault_count rest) (state self.old) }
        ensures knocking { tells_knocking ≡ true → knocking self.new ≡ knocking self.old };
}
