ghost use Rattle.std.specs.Prelude.{◌≡◌, ◌≤◌, false, length, IfNone, IfSome};
ghost use Rattle.tk_wire.specs.Meanings.{counts_given};
ghost use Rattle.tk_net.specs.Counting.{untold};
ghost use Rattle.tk_net.specs.Hosting.{IsNoBytes};

use std::alloc::Global;
use std::marker::Model;
use tk_base::NoMemory;
use tk_wire::{Dialed, Gave, Greeting, Took, Wire};

/// A link that was dialed. It gives its greeting before all else, and tells nothing of its bytes.
#[derive(Drop)]
pub struct DialedLink<L: Wire> {
    link: L,
    ahead: Vec<u8>,
    // How many bytes of the greeting went over the link.
    sent: usize,
    greeted: bool,
}

impl<L: Wire> Model for DialedLink<L> {
    ghost use Rattle.std.specs.Prelude.{◌≤◌, vec_len};
    ghost use Rattle.tk_net.specs.Hosting.{DialedView};

    ghost Value = { DialedView };

    ghost view = { λ d. record { counts = L.counts d.link; shut = L.is_shut d.link; greeted = d.greeted } };

    ghost invariant = { λ d. d.sent ≤ vec_len d.ahead };
}

// Gives what is left of a greeting. None where all of it has gone, else what the last give answered.
fn give_ahead<L: Wire>(link: &mut L, ahead: &[u8], sent: &mut usize) -> Option<Gave>
    requires { sent.old ≤ length ahead.now }
    ensures sent { sent.new ≤ length ahead.now }
    ensures none { IfNone result (L.counts link.new ≡ L.counts link.old) }
    ensures some { IfSome result (λ gave. L.counts link.new ≡ counts_given gave (L.counts link.old)) }
    ensures early { IfSome result IsNoBytes }
    ensures shut { L.is_shut link.new ≡ L.is_shut link.old }
{
    while *sent < ahead.len() {
        match link.give(&ahead[*sent..]) {
            Gave::Bytes(count) => *sent += count,
            Gave::NotYet => return Some(Gave::NotYet),
            Gave::Failed => return Some(Gave::Failed),
        }
    }
    None
}

impl<L: Wire> DialedLink<L> {
    /// A link over which nothing has gone.
    pub(crate) fn new(alloc: Global, link: L) -> DialedLink<L>
        ensures { result ≡ record { counts = L.counts link; shut = L.is_shut link; greeted = false } }
    {
        DialedLink {
            link,
            ahead: Vec::new(alloc),
            sent: 0,
            greeted: false,
        }
    }
}

impl<L: Wire> Wire for DialedLink<L> {
    ghost tells = { false };

    ghost traffic = { λ _. untold };

    ghost counts = { λ d. d.counts };

    ghost is_shut = { λ d. d.shut };

    fn faults(&self) -> u64 {
        self.link.faults()
    }

    fn ends(&self) -> u64 {
        self.link.ends()
    }

    fn taken(&self) -> u64 {
        self.link.taken()
    }

    fn take(&mut self, into: &mut [u8]) -> Took {
        self.link.take(into)
    }

    fn give(&mut self, bytes: &[u8]) -> Gave {
        match give_ahead(&mut self.link, &self.ahead, &mut self.sent) {
            Some(gave) => gave,
            None => self.link.give(bytes),
        }
    }

    fn shut(&mut self) {
        self.link.shut();
    }
}

impl<L: Wire> Dialed for DialedLink<L> {
    ghost greeted = { λ d. d.greeted };

    fn greet(&mut self, greeting: &Greeting) -> Result<(), NoMemory> {
        greeting.put(&mut self.ahead)?;
        self.greeted = true;
        Ok(())
    }
}
