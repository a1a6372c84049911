//! How a monitor begins, at some places of its parts.

ghost use Rattle.std.specs.Prelude.{◌≡◌, IfOk};
ghost use Rattle.tk_input.specs.Logs.{AreParts, ArePlaces};
ghost use Rattle.tk_trail.specs.Legal.{IsLegal};
ghost use Rattle.tk_monitor.specs.Monitored.{made};

use crate::board::Board;
use crate::monitor::Monitor;
use crate::parts::left_of;
use crate::phase::Phase;
use crate::start::start;
use crate::trail::Trail;
use std::alloc::Global;
use tk_base::{Mon, NoMemory, Places, Settings};
use tk_input::Part;

impl Monitor {
    /// Takes the room for all raises. Costs the number of objects, and a raise for each change before the
    /// start.
    pub fn new(
        alloc: Global,
        settings: &Settings,
        mon: Mon,
        parts: Vec<Part>,
        from: &Places,
    ) -> Result<Monitor, NoMemory>
        requires parts { AreParts settings.now.objects parts.items }
        requires places { ArePlaces parts.items from.now }
        ensures ok { IfOk result (λ m. m ≡ made settings.now mon.0 parts.items from.now) }
        ensures legal { IfOk result (λ m. IsLegal m.setup m.trail) }
    {
        let own = from.try_clone()?;
        let mut board = Board::new(alloc, settings.objects())?;
        // Here and below by name: `?` would drop each field of the board, which is dear to prove.
        let Ok(next) = start(alloc, &mut board, parts.as_slice(), from) else {
            drop(board);
            return Err(NoMemory);
        };
        let left = left_of(parts.as_slice(), next.as_slice());
        let Ok(trail) = Trail::new(alloc, left) else {
            drop(board);
            return Err(NoMemory);
        };
        Ok(Monitor {
            settings: *settings,
            number: mon,
            parts,
            from: own,
            next,
            board,
            trail,
            phase: Phase {
                seq: 0,
                reported: false,
                told: false,
                stopped: false,
            },
        })
    }
}
