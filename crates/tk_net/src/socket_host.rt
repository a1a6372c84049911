ghost use Rattle.std.specs.Prelude.{◌≡◌, IfOk, IfSome};
ghost use Rattle.tk_wire.specs.Host.{IsOfOurs};
ghost use Rattle.tk_net.specs.Counting.{no_counts};
ghost use Rattle.tk_net.specs.Hosting.{TurnsAway, new_host};

use crate::cable::Cable;
use crate::door::{Door, fault_of};
use crate::host_faults::counted;
use crate::lobby::Lobby;
use crate::socket::Socket;
use std::alloc::Global;
use std::io;
use std::io::ErrorKind;
use std::marker::{Model, Send};
use std::net::ToSocketAddrs;
use std::time::{Clock, Duration, Instant};
use tk_wire::{Greeting, Host, NetFault};

/// How many come in by one accept at most.
const MOST_AT_ONCE: u32 = 64;

/// A host over sockets. At most 64 are held without a whole greeting, and a further one is turned away.
#[derive(Drop)]
pub struct SocketHost<'a, H: std::net::Net + Clock + Copy> {
    handle: &'a H,
    alloc: Global,
    // How many seconds a greeting may take, and a peer may be silent.
    silence: u64,
    // None until it listens.
    door: Option<(Door, String)>,
    lobby: Lobby<Socket>,
    faults: u64,
}

impl<'a, H: std::net::Net + Clock + Copy> Model for SocketHost<'a, H> {
    ghost use Rattle.std.specs.Prelude.{is_some};
    ghost use Rattle.tk_net.specs.Hosting.{HostView};

    ghost Value = { HostView };

    ghost view = { λ h. record {
      state = record { listens = is_some h.door; faults = h.faults; strangers = h.lobby.strangers };
      run = h.lobby.run;
      monitors = h.lobby.monitors;
    } };
}

// A door at the first address of a name at which there can be one, and that address.
fn opened<H: std::net::Net>(handle: &H, alloc: Global, at: &str) -> io::Result<(Door, String)> {
    let mut last = io::Error::from(ErrorKind::AddrNotAvailable);
    for address in at.to_socket_addrs(handle)? {
        match Door::open(handle, alloc, address) {
            Ok(door) => {
                let name = format!(in alloc; "{}", door.address())?;
                return Ok((door, name));
            }
            Err(error) => last = error,
        }
    }
    Err(last)
}

// Lets in who waits at the door, each with so long for the greeting.
fn let_in(
    door: &mut Door,
    lobby: &mut Lobby<Socket>,
    until: Option<Instant>,
) -> Result<(), NetFault>
    ensures { TurnsAway lobby.old lobby.new }
{
    for _ in 0..MOST_AT_ONCE {
        match door.accept() {
            Ok(Some(socket)) => {
                if lobby.enter(socket, until).is_err() {
                    return Err(NetFault::NoMemory);
                }
            }
            Ok(None) => break,
            Err(error) => return Err(fault_of(error)),
        }
    }
    Ok(())
}

// The first of those who came in whose greeting is whole, if there is one, and the cable behind the greeting.
fn admit<H: Clock + Copy>(
    clock: &H,
    alloc: Global,
    silence: u64,
    door: &mut Door,
    lobby: &mut Lobby<Socket>,
) -> Result<Option<(Cable<H>, Greeting)>, NetFault>
    ensures link { IfOk result (λ got. IfSome got (λ came. came.0.counts ≡ no_counts)) }
    ensures whose { IfOk result (λ got. IfSome got (λ came. IsOfOurs lobby.old.run lobby.old.monitors came.1)) }
    ensures kept { TurnsAway lobby.old lobby.new }
{
    let now = match Instant::now(clock) {
        Ok(now) => now,
        Err(error) => return Err(fault_of(error)),
    };
    let_in(door, lobby, now.checked_add(Duration::from_secs(silence)))?;
    let (socket, greeting) = match lobby.next(Some(now)) {
        Ok(Some(came)) => came,
        Ok(None) => return Ok(None),
        Err(_) => return Err(NetFault::NoMemory),
    };
    match Cable::new(alloc, socket, *clock, silence, true) {
        Ok(cable) => Ok(Some((cable, greeting))),
        Err(_) => Err(NetFault::NoMemory),
    }
}

impl<'a, H: std::net::Net + Clock + Copy> SocketHost<'a, H> {
    /// A host of a run with so many monitors, which has opened nothing yet. A greeting that is not whole within `silence`
    /// seconds is a stranger's, and a link over which nothing comes for so long has failed.
    pub fn new(
        alloc: Global,
        handle: &'a H,
        run: u64,
        monitors: u32,
        silence: u64,
    ) -> Result<SocketHost<'a, H>, NetFault>
        ensures { IfOk result (λ host. host ≡ new_host run monitors) }
    {
        Ok(SocketHost {
            handle,
            alloc,
            silence,
            door: None,
            lobby: Lobby::new(alloc, run, monitors),
            faults: 0,
        })
    }
}

impl<'a, H: std::net::Net + Clock + Copy + Send> Host for SocketHost<'a, H> {
    type Link = Cable<H>;

    ghost state = { λ h. h.state };

    ghost monitors = { λ h. h.monitors };

    ghost run = { λ h. h.run };

    fn faults(&self) -> u64 {
        self.faults
    }

    fn strangers(&self) -> u64 {
        self.lobby.strangers()
    }

    fn listen(&mut self, at: &str) -> Result<(), NetFault> {
        match opened(self.handle, self.alloc, at) {
            Ok(door) => {
                self.door = Some(door);
                Ok(())
            }
            Err(error) => Err(counted(&mut self.faults, fault_of(error))),
        }
    }

    fn address(&self) -> &str {
        let Some((_, name)) = &self.door else {
            unreachable!();
        };
        name.as_str()
    }

    fn accept(&mut self) -> Result<Option<(Cable<H>, Greeting)>, NetFault> {
        let Some((door, _)) = &mut self.door else {
            unreachable!();
        };
        match admit(self.handle, self.alloc, self.silence, door, &mut self.lobby) {
            Ok(came) => Ok(came),
            Err(fault) => Err(counted(&mut self.faults, fault)),
        }
    }

    fn wait(&mut self) -> Result<(), NetFault> {
        let Some((door, _)) = &mut self.door else {
            unreachable!();
        };
        match door.wait() {
            Ok(()) => Ok(()),
            Err(error) => Err(counted(&mut self.faults, fault_of(error))),
        }
    }

    fn back(&mut self, _link: Cable<H>) {}
}
