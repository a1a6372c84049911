//! The far end of a watch's connections: a host in memory, and what is given and taken there.

ghost use Rattle.std.specs.Prelude.{◌≡◌, ◌<◌, IfSome, true, length};

use crate::watches::Sample;
use std::alloc::Global;
use tk_net::{MemDialer, MemHost, MemLink};
use tk_wire::{Dialer, Greeting, Host, Took, Wire};

/// How often a host looks for what comes.
const LOOKS: u32 = 100_000;

/// Hello of monitor 1 of run 5 in version 1.
const HELLO: [u8; 18] = [0, 0, 0, 14, 1, 0, 0, 0, 0, 0, 0, 0, 5, 1, 0, 0, 0, 1];

/// A host that listens, and its dialer.
pub(crate) fn listening(alloc: Global) -> Option<(MemHost, MemDialer)>
    ensures { IfSome result (λ made. made.0.state.listens ≡ true) }
{
    let (mut host, mut dialers) = MemHost::new(alloc, 5, 1, 1, Vec::new(alloc)).ok()?;
    let dialer = dialers.pop();
    drop(dialers);
    let listened = host.listen("memory");
    match (listened, dialer) {
        (Ok(()), Some(dialer)) => Some((host, dialer)),
        _ => None,
    }
}

/// The next link and its greeting, once a monitor has greeted.
pub(crate) fn accepted(host: &mut MemHost) -> Option<(MemLink, Greeting)>
    requires { host.old.state.listens ≡ true }
    ensures { host.new.state.listens ≡ true }
{
    for _ in 0..LOOKS {
        if let Some(came) = host.accept().ok()? {
            return Some(came);
        }
        host.wait().ok()?;
    }
    None
}

/// Whether just this waits on a link.
pub(crate) fn hears(link: &mut MemLink, wanted: &[u8]) -> bool {
    let mut heard = [0; 128];
    let mut count = 0;
    for _ in 0..16 {
        if count >= heard.len() {
            return false;
        }
        let Took::Bytes(more) = link.take(&mut heard[count..]) else {
            return &heard[..count] == wanted;
        };
        count += more;
    }
    false
}

/// Whether a greeting has these counts and starts.
fn greets(greeting: &Greeting, beginnings: &[(u64, u32)]) -> bool {
    if greeting.beginnings.len() != beginnings.len() {
        return false;
    }
    for i in 0..beginnings.len() {
        let begun = greeting.beginnings[i];
        if (begun.count, begun.start) != beginnings[i] {
            return false;
        }
    }
    true
}

/// Dials, and begins a connection.
fn dials(alloc: Global, watch: &mut Sample, dialer: &mut MemDialer) -> bool {
    let Ok(Some((link, rest, bell))) = dialer.dial() else {
        return false;
    };
    drop(rest);
    drop(bell);
    watch.leave();
    if watch.begin(alloc, link).is_err() {
        return false;
    }
    watch.turn();
    true
}

/// A host in memory, and its end of the last connection.
#[derive(Drop)]
pub(crate) struct Far {
    dialer: MemDialer,
    host: MemHost,
    links: Vec<MemLink>,
    ghost listens: { host.state.listens ≡ true },
}

impl Far {
    /// Nobody has dialed.
    pub(crate) fn new(alloc: Global) -> Option<Far> {
        let (host, dialer) = listening(alloc)?;
        Some(Far {
            dialer,
            host,
            links: Vec::new(alloc),
        })
    }

    /// Keeps the end of a connection.
    fn keep(&mut self, link: MemLink) -> bool {
        self.links.clear();
        self.links.push(link).is_ok()
    }

    /// Whether who dialed greets so, and says Hello.
    fn accepts(&mut self, beginnings: &[(u64, u32)]) -> bool {
        let Some((mut link, greeting)) = accepted(&mut self.host) else {
            return false;
        };
        let is_right = greets(&greeting, beginnings) && hears(&mut link, &HELLO);
        drop(greeting);
        self.keep(link) && is_right
    }

    /// Whether a connection that begins is greeted with these counts and starts.
    pub(crate) fn begins(
        &mut self,
        alloc: Global,
        watch: &mut Sample,
        beginnings: &[(u64, u32)],
    ) -> bool {
        if !dials(alloc, watch, &mut self.dialer) {
            return false;
        }
        self.accepts(beginnings)
    }

    /// Gives bytes to the watch.
    pub(crate) fn gives(&mut self, bytes: &[u8])
        requires { 0 < length bytes.now }
    {
        if let Some(link) = self.links.last_mut() {
            link.give(bytes);
        }
    }

    /// Whether the watch has said just this.
    pub(crate) fn hears(&mut self, said: &[u8]) -> bool {
        match self.links.last_mut() {
            Some(link) => hears(link, said),
            None => false,
        }
    }
}
