ghost use Rattle.std.specs.Prelude.{◌≡◌, IfOk, vec_len};
ghost use Rattle.tk_net.specs.Hosting.{TurnsAway, new_host};

use crate::host_faults::counted;
use crate::lobby::Lobby;
use crate::mem_dialer::MemDialer;
use crate::mem_link::MemLink;
use crate::mem_source::MemSource;
use crate::plan::Plan;
use crate::ring::RingEnds;
use rtrb::{Consumer, RingBuffer};
use std::alloc::Global;
use std::marker::Model;
use std::sync::Arc;
use std::thread;
use tk_base::NoMemory;
use tk_wire::{Greeting, Host, NetFault};

/// How many connections of one dialer wait to be let in at most.
const MOST_WAITING: usize = 64;

/// How often a wait lets others run.
const YIELDS: u32 = 8;

/// A host in memory, for tests.
#[derive(Drop)]
pub struct MemHost {
    alloc: Global,
    plan: Arc<Plan, Global>,
    // Where its dialers hand in connections.
    doors: Vec<Consumer<RingEnds>>,
    lobby: Lobby<MemSource>,
    // Where it listens. None until then.
    at: Option<String>,
    faults: u64,
}

impl Model for MemHost {
    ghost use Rattle.std.specs.Prelude.{is_some};
    ghost use Rattle.tk_net.specs.Hosting.{HostView};

    ghost Value = { HostView };

    ghost view = { λ h. record {
      state = record { listens = is_some h.at; faults = h.faults; strangers = h.lobby.strangers };
      run = h.lobby.run;
      monitors = h.lobby.monitors;
    } };
}

// Lets in who waits at the doors.
fn let_in(
    doors: &mut [Consumer<RingEnds>],
    plan: &Arc<Plan, Global>,
    lobby: &mut Lobby<MemSource>,
) -> Result<(), NoMemory>
    ensures { TurnsAway lobby.old lobby.new }
{
    for door in doors.iter_mut() {
        for _ in 0..MOST_WAITING {
            let Ok(ends) = door.pop() else {
                break;
            };
            lobby.enter(MemSource::new(ends, Arc::try_clone(plan)?), None)?;
        }
    }
    Ok(())
}

impl MemHost {
    /// A host of a run with so many monitors, and so many dialers of it. It fails the calls `fails` and no other: its
    /// `listen`, `accept` and `wait`, the `dial` of its dialers, the `take` and `give` of links, each read of a greeting,
    /// and the `rest` of rests are numbered together, from 1. A dial that fails is one that nobody answers.
    pub fn new(
        alloc: Global,
        run: u64,
        monitors: u32,
        dialers: usize,
        fails: Vec<u64>,
    ) -> Result<(MemHost, Vec<MemDialer>), NoMemory>
        ensures host { IfOk result (λ made. made.0 ≡ new_host run monitors) }
        ensures dialers { IfOk result (λ made. vec_len made.1 ≡ dialers) }
    {
        let plan = Arc::new(alloc, Plan::new(fails, None))?;
        let mut doors = Vec::new(alloc);
        let mut made = Vec::new(alloc);
        for _ in 0..dialers {
            let (outside, inside) = RingBuffer::new(alloc, MOST_WAITING)?;
            doors.push(inside)?;
            made.push(MemDialer::new(alloc, Arc::try_clone(&plan)?, outside))?;
        }
        let host = MemHost {
            alloc,
            plan,
            doors,
            lobby: Lobby::new(alloc, run, monitors),
            at: None,
            faults: 0,
        };
        Ok((host, made))
    }
}

impl Host for MemHost {
    type Link = MemLink;

    ghost state = { λ h. h.state };

    ghost monitors = { λ h. h.monitors };

    ghost run = { λ h. h.run };

    fn faults(&self) -> u64 {
        self.faults
    }

    fn strangers(&self) -> u64 {
        self.lobby.strangers()
    }

    fn listen(&mut self, at: &str) -> Result<(), NetFault> {
        if self.plan.refuses() {
            return Err(counted(&mut self.faults, NetFault::Failed));
        }
        let Ok(at) = String::from_str(self.alloc, at) else {
            return Err(NetFault::NoMemory);
        };
        self.at = Some(at);
        Ok(())
    }

    fn address(&self) -> &str {
        let Some(at) = &self.at else {
            unreachable!();
        };
        at.as_str()
    }

    fn accept(&mut self) -> Result<Option<(MemLink, Greeting)>, NetFault> {
        if self.plan.refuses() {
            return Err(counted(&mut self.faults, NetFault::Failed));
        }
        if let_in(&mut self.doors, &self.plan, &mut self.lobby).is_err() {
            return Err(NetFault::NoMemory);
        }
        match self.lobby.next(None) {
            Ok(Some((source, greeting))) => Ok(Some((source.into_link(), greeting))),
            Ok(None) => Ok(None),
            Err(_) => Err(NetFault::NoMemory),
        }
    }

    fn wait(&mut self) -> Result<(), NetFault> {
        if self.plan.refuses() {
            return Err(counted(&mut self.faults, NetFault::Failed));
        }
        for _ in 0..YIELDS {
            thread::yield_now();
        }
        Ok(())
    }

    fn back(&mut self, _link: MemLink) {}
}
