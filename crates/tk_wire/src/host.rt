ghost use Rattle.std.specs.Prelude.{◌≡◌, ℕ, true, false, IfOk, IfSome};
ghost use Rattle.tk_wire.specs.Net.{IsNew};
ghost use Rattle.tk_wire.specs.Host.{Admits, HostState, IsOfOurs, host_called, host_listened};

use crate::greeting::Greeting;
use crate::net::NetFault;
use crate::wire::Wire;
use std::marker::Send;

/// Where monitors of other processes come in: it listens at an address, and tells whose each link is by its greeting.
pub trait Host {
    type Link: Wire + Send + Drop;

    /// Whether it listens, its faults and the strangers.
    ghost state: { Self → HostState };

    /// The greatest number of a monitor. One past it is a stranger.
    ghost monitors: { Self → ℕ };

    /// The run that greetings must name. One of another run is a stranger.
    ghost run: { Self → ℕ };

    /// How many calls failed.
    fn faults(&self) -> u64
        ensures { result ≡ (state self.now).faults };

    /// How many connections were closed since their greeting was none of ours.
    fn strangers(&self) -> u64
        ensures { result ≡ (state self.now).strangers };

    /// Listens at ADDRESS:PORT, where port 0 is for the system to choose.
    fn listen(&mut self, at: &str) -> Result<(), NetFault>
        requires { (state self.old).listens ≡ false }
        ensures state { state self.new ≡ host_listened result (state self.old) }
        ensures run { run self.new ≡ run self.old }
        ensures monitors { monitors self.new ≡ monitors self.old };

    /// Where it listens, as ADDRESS:PORT with the port that the system chose. No clause says so.
    fn address(&self) -> &str
        requires { (state self.now).listens ≡ true };

    /// A link whose greeting is whole, and the greeting, if there is one. It never waits.
    fn accept(&mut self) -> Result<Option<(Self::Link, Greeting)>, NetFault>
        requires { (state self.old).listens ≡ true }
        ensures link { IfOk result (λ got. IfSome got (λ came.
            IsNew Self.Link.tells (Self.Link.traffic came.0) (Self.Link.counts came.0))) }
        ensures whose { IfOk result (λ got. IfSome got (λ came. IsOfOurs (run self.old) (monitors self.old) came.1)) }
        ensures state { Admits result (state self.old) (state self.new) }
        ensures run { run self.new ≡ run self.old }
        ensures monitors { monitors self.new ≡ monitors self.old };

    /// Returns after readiness, or a twentieth of a second. Nothing is promised of it.
    fn wait(&mut self) -> Result<(), NetFault>
        requires { (state self.old).listens ≡ true }
        ensures state { state self.new ≡ host_called result (state self.old) }
        ensures run { run self.new ≡ run self.old }
        ensures monitors { monitors self.new ≡ monitors self.old };

    /// Takes a link back and closes it, without memory.
    fn back(&mut self, link: Self::Link)
        ensures state { state self.new ≡ state self.old }
        ensures run { run self.new ≡ run self.old }
        ensures monitors { monitors self.new ≡ monitors self.old };
}
