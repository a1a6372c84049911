ghost use Rattle.std.specs.Prelude.{◌≡◌, IfOk, IfSome};
ghost use Rattle.tk_wire.specs.Host.{IsOfOurs};
ghost use Rattle.tk_net.specs.Hosting.{TurnsAway};

use crate::caller::{Caller, Standing};
use crate::source::Source;
use std::alloc::Global;
use std::collections::VecDeque;
use std::marker::Model;
use std::time::Instant;
use tk_base::NoMemory;
use tk_wire::Greeting;

/// How many are held whose greeting is not whole yet.
const MOST_CALLERS: usize = 64;

/// Those who came in and whose greetings are awaited, first come first.
#[derive(Drop)]
pub(crate) struct Lobby<S> {
    alloc: Global,
    run: u64,
    monitors: u32,
    callers: VecDeque<Caller<S>>,
    strangers: u64,
}

impl<S> Model for Lobby<S> {
    ghost use Rattle.tk_net.specs.Hosting.{LobbyView};

    ghost Value = { LobbyView };

    ghost view = { λ l. record { run = l.run; monitors = l.monitors; strangers = l.strangers } };
}

impl<S: Source + Drop> Lobby<S> {
    /// Nobody is in. Greetings must be of this run and of one of so many monitors.
    pub(crate) fn new(alloc: Global, run: u64, monitors: u32) -> Lobby<S>
        ensures { result ≡ record { run = run; monitors = monitors; strangers = 0 } }
    {
        Lobby {
            alloc,
            run,
            monitors,
            callers: VecDeque::new(alloc),
            strangers: 0,
        }
    }

    /// How many were turned away.
    pub(crate) fn strangers(&self) -> u64
        ensures { result ≡ self.now.strangers }
    {
        self.strangers
    }

    /// Lets one more in, who has until then to greet. Where 64 are in already, that one is turned away.
    pub(crate) fn enter(&mut self, source: S, until: Option<Instant>) -> Result<(), NoMemory>
        ensures { TurnsAway self.old self.new }
    {
        if self.callers.len() >= MOST_CALLERS {
            self.strangers = self.strangers.saturating_add(1);
            return Ok(());
        }
        self.callers.push_back(Caller::new(source, until))?;
        Ok(())
    }

    /// The first whose greeting is whole, and the greeting, if there is one. Strangers among those before are turned away.
    pub(crate) fn next(&mut self, now: Option<Instant>) -> Result<Option<(S, Greeting)>, NoMemory>
        ensures whose { IfOk result (λ got. IfSome got (λ came. IsOfOurs self.old.run self.old.monitors came.1)) }
        ensures kept { TurnsAway self.old self.new }
    {
        for _ in 0..self.callers.len() {
            let Some(mut caller) = self.callers.pop_front() else {
                return Ok(None);
            };
            match caller.stands(self.alloc, self.run, self.monitors, now)? {
                Standing::Waits => self.callers.push_back(caller)?,
                Standing::Stranger => self.strangers = self.strangers.saturating_add(1),
                Standing::Greets(greeting) => return Ok(Some((caller.into_source(), greeting))),
            }
        }
        Ok(None)
    }
}
