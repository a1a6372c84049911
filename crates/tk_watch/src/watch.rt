//! The watch: a monitor that is told the records of streams, from connection to connection.

ghost use Rattle.std.specs.Prelude.{◌≡◌, ◌<◌, ◌≤◌, ◌∷◌, [], IfOk, IfSome, IsNone, Some, replicate};
ghost use Rattle.tk_base.specs.Settings.{IsWithinLimits};
ghost use Rattle.tk_frames.specs.Spelling.{IsVersion};
ghost use Rattle.tk_input.specs.Changes.{closing};
ghost use Rattle.tk_watch.specs.Fresh.{IsUncounted};
ghost use Rattle.tk_watch.specs.Watch.{IsWatch, fresh};

mod connecting;
mod telling;

use crate::standing::Standing;
use std::alloc::Global;
use std::marker::Model;
use tk_base::{Mon, NoMemory, Obj, Places, Settings};
use tk_input::{Change, Changes, Part};
use tk_monitor::Monitor;
use tk_port::Port;
use tk_wire::Wire;

/// A monitor that is told the records of streams. Each stream's log ends with a closing record, which is raised once the
/// stream has ended.
#[derive(Drop)]
pub struct Watch<W: Wire> {
    standing: Standing<W>,
    // At least what the sizes of all changes of its parts sum to.
    weight: u128,
    // How many records each stream gave.
    counts: Vec<u64>,
    run: u64,
    version: u8,
}

impl<W: Wire> Model for Watch<W> {
    ghost use Rattle.tk_watch.specs.Watch.{IsWatch, WatchView};

    ghost Value = { WatchView W };

    ghost view = { λ w. record {
      monitor = w.standing.monitor;
      port = w.standing.port;
      weight = w.weight;
      counts = w.counts.items;
      run = w.run;
      version = w.version;
    } };

    ghost invariant = { λ w. IsWatch (record {
      monitor = w.standing.monitor;
      port = w.standing.port;
      weight = w.weight;
      counts = w.counts.items;
      run = w.run;
      version = w.version;
    }) };
}

/// The parts of streams that gave nothing yet.
fn unfed_parts(alloc: Global, streams: u32) -> Result<Vec<Part>, NoMemory>
    ensures { IfOk result (λ parts. parts.items ≡ replicate streams (closing ∷ [])) }
{
    let mut parts = Vec::with_capacity(alloc, streams as usize)?;
    for i in 0..streams {
        let mut changes = Changes::new(alloc);
        changes.push(Change { obj: Obj(1), by: 0 })?;
        parts.push(Part::new(changes))?;
    }
    Ok(parts)
}

impl<W: Wire> Watch<W> {
    /// A watch that was told nothing.
    pub fn new(
        alloc: Global,
        settings: &Settings,
        number: Mon,
        streams: u32,
        run: u64,
        version: u8,
    ) -> Result<Watch<W>, NoMemory>
        requires settings { IsWithinLimits settings.now }
        requires number { (0 < number.0) × (number.0 ≤ 64) }
        requires streams { (1 ≤ streams) × (streams ≤ 8) }
        requires version { IsVersion version }
        ensures fresh { IfOk result (λ w. w ≡ fresh settings.now number.0 streams run version) }
        ensures uncounted { IfOk result (λ w. IsUncounted w) }
    {
        let parts = unfed_parts(alloc, streams)?;
        let from = Places::new(Vec::from_elem(alloc, 0, streams as usize)?);
        let counts = Vec::from_elem(alloc, 0, streams as usize)?;
        let monitor = Monitor::new(alloc, settings, number, parts, &from)?;
        Ok(Watch {
            standing: Standing::idle(monitor),
            weight: 0,
            counts,
            run,
            version,
        })
    }

    /// Its monitor, whose trail is legal.
    pub fn monitor(&self) -> &Monitor
        ensures value { result.now ≡ self.now.monitor }
        ensures kept { IsWatch self.now }
    {
        self.standing.monitor()
    }

    /// Its end of a connection, where there is one.
    pub fn port(&self) -> Option<&Port<W>>
        ensures none { IsNone self.now.port → IsNone result }
        ensures some { IfSome result (λ port. self.now.port ≡ Some port.now) }
        ensures kept { IsWatch self.now }
    {
        self.standing.port()
    }

    /// How many records each stream gave, its closing record counted.
    pub fn counts(&self) -> &[u64]
        ensures value { result.now ≡ self.now.counts }
        ensures kept { IsWatch self.now }
    {
        self.counts.as_slice()
    }
}
