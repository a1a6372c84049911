ghost use Rattle.std.specs.Prelude.{◌≡◌, Bool, true, false, IfOk, IfSome, OnErr, OnOk};
ghost use Rattle.tk_wire.specs.Greeting.{NamesMonitor, TellsStreams};
ghost use Rattle.tk_wire.specs.Net.{IsNew};

use crate::greeting::Greeting;
use crate::net::{Bell, Rest};
use crate::wire::Wire;
use std::marker::{Send, Sync};
use tk_base::NoMemory;

/// A link that was dialed, over which nothing has gone yet. What is given before a greeting makes its giver a stranger.
pub trait Dialed: Wire {
    /// Whether it was greeted.
    ghost greeted: { Self → Bool };

    /// Puts the greeting in front of all that the link will give. An error leaves it as it was.
    fn greet(&mut self, greeting: &Greeting) -> Result<(), NoMemory>
        requires new { IsNew Self.tells (Self.traffic self.old) (Self.counts self.old) }
        requires once { greeted self.old ≡ false }
        requires monitor { NamesMonitor greeting.now }
        requires streams { TellsStreams greeting.now }
        ensures ok { OnOk result (greeted self.new ≡ true) }
        ensures err { OnErr result (greeted self.new ≡ false) }
        ensures new { IsNew Self.tells (Self.traffic self.new) (Self.counts self.new) }
        ensures shut { Self.is_shut self.new ≡ Self.is_shut self.old };
}

/// Makes connections to the host of a coordinator.
pub trait Dialer {
    type Link: Dialed + Send + Drop;

    type Rest: Rest + Send + Drop;

    type Bell: Bell + Send + Sync + Drop;

    /// A link to the host, with the rest and the bell of the one who reads it, and None where nobody answers. It may wait.
    fn dial(&mut self) -> Result<Option<(Self::Link, Self::Rest, Self::Bell)>, NoMemory>
        ensures link { IfOk result (λ got. IfSome got (λ made.
            IsNew Self.Link.tells (Self.Link.traffic made.0) (Self.Link.counts made.0))) }
        ensures greeted { IfOk result (λ got. IfSome got (λ made. Self.Link.greeted made.0 ≡ false)) }
        ensures shut { IfOk result (λ got. IfSome got (λ made. Self.Link.is_shut made.0 ≡ false)) }
        ensures rest { IfOk result (λ got. IfSome got (λ made. Self.Rest.fault_count made.1 ≡ 0)) };
}
