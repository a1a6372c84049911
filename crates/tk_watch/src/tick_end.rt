//! Where the ticks of the streams ended.

ghost use Rattle.std.specs.Prelude.{◌≡◌, ◌≤◌, ◌-◌, [], IfOk, length, replicate, slice_set};

use std::alloc::Global;
use std::marker::Model;
use tk_base::{Feeder, NoMemory};

/// Of each stream that has a window how many ticks it has ended, and its place where the last of them did.
#[derive(Drop)]
pub struct TickEnd {
    ticks: Vec<u64>,
    places: Vec<u64>,
}

impl Model for TickEnd {
    ghost use Rattle.tk_watch.specs.Ends.{TickEndView};

    ghost Value = { TickEndView };

    ghost view = { λ e. record { ticks = e.ticks.items; places = e.places.items } };
}

impl TickEnd {
    /// Of no stream.
    pub(crate) fn none(alloc: Global) -> TickEnd
        ensures { result ≡ record { ticks = []; places = [] } }
    {
        TickEnd {
            ticks: Vec::new(alloc),
            places: Vec::new(alloc),
        }
    }

    /// Of streams that stand at these places and have ended none.
    pub(crate) fn new(alloc: Global, places: &[u64]) -> Result<TickEnd, NoMemory>
        ensures { IfOk result (λ e. e ≡ record { ticks = replicate (length places.now) 0; places = places.now }) }
    {
        Ok(TickEnd {
            ticks: Vec::from_elem(alloc, 0, places.len())?,
            places: Vec::from_slice(alloc, places)?,
        })
    }

    /// The last tick of a stream ended here, after so many in all.
    pub(crate) fn note(&mut self, f: Feeder, ticks: u64, place: u64)
        requires { 1 ≤ f.0 }
        ensures ticks { self.new.ticks ≡ slice_set self.old.ticks (f.0 - 1) ticks }
        ensures places { self.new.places ≡ slice_set self.old.places (f.0 - 1) place }
    {
        let i = (f.0 - 1) as usize;
        if i < self.ticks.len() {
            self.ticks[i] = ticks;
        }
        if i < self.places.len() {
            self.places[i] = place;
        }
    }

    /// The same once more.
    pub(crate) fn try_clone(&self, alloc: Global) -> Result<TickEnd, NoMemory>
        ensures { IfOk result (λ e. e ≡ self.now) }
    {
        Ok(TickEnd {
            ticks: Vec::from_slice(alloc, self.ticks.as_slice())?,
            places: Vec::from_slice(alloc, self.places.as_slice())?,
        })
    }

    /// How many ticks each stream has ended.
    pub(crate) fn ticks(&self) -> &[u64]
        ensures { result.now ≡ self.now.ticks }
    {
        self.ticks.as_slice()
    }

    /// Where the last of them did.
    pub(crate) fn places(&self) -> &[u64]
        ensures { result.now ≡ self.now.places }
    {
        self.places.as_slice()
    }
}
