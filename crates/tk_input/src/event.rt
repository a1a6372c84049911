//! The events of a run, as an order file lists them and a world makes them happen.

ghost use Rattle.std.specs.Prelude.{◌≡◌, IfOk};
ghost use Rattle.tk_input.specs.declared.event.Event.TheVariants.{Retune};

use crate::retuning::Retuning;
use std::alloc::Global;
use tk_base::{Feeder, Mon, NoMemory};

/// What happens next, as a line of the order file says. An event has 16 bytes.
#[derive(Debug, Drop)]
pub enum Event {
    /// The next change of a feeder arrives.
    Raise(Mon, Feeder),
    /// The monitor looks whether it has something to tell.
    Check(Mon),
    /// The coordinator takes the next frame of the monitor.
    Up(Mon),
    /// The monitor takes the next frame of the coordinator.
    Down(Mon),
    /// The coordinator is asked for another k and epsilon.
    Retune(Retuning),
}

impl Event {
    /// Takes the room for two numbers.
    pub fn retune(alloc: Global, k: u64, epsilon: u128) -> Result<Event, NoMemory>
        ensures { IfOk result (λ e. e ≡ Retune (record { k = k; epsilon = epsilon })) }
    {
        Ok(Event::Retune(Retuning::new(alloc, k, epsilon)?))
    }

    /// The same event once more.
    pub fn try_clone(&self) -> Result<Event, NoMemory>
        ensures { IfOk result (λ e. e ≡ self.now) }
    {
        Ok(match self {
            Event::Raise(mon, f) => Event::Raise(*mon, *f),
            Event::Check(mon) => Event::Check(*mon),
            Event::Up(mon) => Event::Up(*mon),
            Event::Down(mon) => Event::Down(*mon),
            Event::Retune(retuning) => Event::Retune(retuning.try_clone()?),
        })
    }
}
