ghost use Rattle.std.specs.Prelude.{◌≤◌, IfOk};
ghost use Rattle.tk_net.specs.Hosting.{GreetsOurs};

use crate::source::Source;
use std::alloc::Global;
use std::time::Instant;
use tk_base::NoMemory;
use tk_wire::{GREETING_SIZE, Greeting, Took};

/// How one stands who came in.
#[derive(Drop)]
pub(crate) enum Standing {
    /// More of the greeting is awaited.
    Waits,
    /// The greeting is none of ours, or was not whole in time.
    Stranger,
    /// The greeting is whole, and one of ours.
    Greets(Greeting),
}

/// One who came in, and as much of the greeting as has come.
#[derive(Drop)]
pub(crate) struct Caller<S> {
    source: S,
    // Until when the greeting has to be whole, where time is looked at.
    until: Option<Instant>,
    bytes: [u8; GREETING_SIZE],
    filled: usize,
    ghost within: { filled ≤ 113 },
}

impl<S: Source> Caller<S> {
    /// One of whom nothing has come.
    pub(crate) fn new(source: S, until: Option<Instant>) -> Caller<S> {
        Caller {
            source,
            until,
            bytes: [0; GREETING_SIZE],
            filled: 0,
        }
    }

    /// What came in, once the greeting is whole.
    pub(crate) fn into_source(self) -> S {
        self.source
    }

    // Reads up to the end of the greeting, and says whether the connection goes on. What follows a greeting stays there.
    fn hear(&mut self) -> bool {
        while self.filled < GREETING_SIZE {
            match self.source.read(&mut self.bytes[self.filled..]) {
                Took::Bytes(count) => self.filled += count,
                Took::NotYet => return true,
                Took::End => return false,
                Took::Failed => return false,
            }
        }
        true
    }

    // Whether the time has passed in which the greeting had to be whole.
    fn is_late(&self, now: Option<Instant>) -> bool {
        match (self.until, now) {
            (Some(until), Some(now)) => until <= now,
            _ => false,
        }
    }

    /// How the caller stands now, where greetings must be of this run and of one of so many monitors.
    pub(crate) fn stands(
        &mut self,
        alloc: Global,
        run: u64,
        monitors: u32,
        now: Option<Instant>,
    ) -> Result<Standing, NoMemory>
        ensures { IfOk result (GreetsOurs run monitors) }
    {
        if !self.hear() {
            return Ok(Standing::Stranger);
        }
        if self.filled < GREETING_SIZE {
            let late = self.is_late(now);
            return Ok(if late {
                Standing::Stranger
            } else {
                Standing::Waits
            });
        }
        let Some(greeting) = Greeting::read(alloc, &self.bytes)? else {
            return Ok(Standing::Stranger);
        };
        if greeting.run != run || greeting.mon.0 > monitors {
            drop(greeting);
            return Ok(Standing::Stranger);
        }
        Ok(Standing::Greets(greeting))
    }
}
