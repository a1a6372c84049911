//! How far the common logs of several queries are raised.

ghost use Rattle.std.specs.Prelude.{◌≡◌, ◌<◌, ◌-◌, ◌^◌, IfOk};
ghost use Rattle.tk_input.specs.Logs.{IsFeeder, IsMonitor, beginnings};
ghost use Rattle.tk_multi.specs.Front.{HasPlace, place_of, raised};

use std::alloc::Global;
use std::marker::Model;
use tk_base::{Feeder, Mon, NoMemory};
use tk_input::Logs;

/// How many changes of each part are raised.
#[derive(Debug, Drop)]
pub struct Front {
    rows: Vec<Vec<u32>>,
}

impl Model for Front {
    ghost use Rattle.std.specs.Prelude.{ℕ, List, map};

    ghost Value = { List (List ℕ) };

    ghost view = { λ f. map (λ row. row.items) f.rows.items };
}

impl Front {
    /// Nothing is raised of these logs.
    pub fn start(alloc: Global, logs: &Logs) -> Result<Front, NoMemory>
        ensures { IfOk result (λ f. f ≡ beginnings logs.now) }
    {
        let mut rows = Vec::new(alloc);
        for j in 0..logs.monitors() {
            rows.push(vec![in alloc; 0u32; logs.feeders(Mon(j + 1)) as usize]?)?;
        }
        Ok(Front { rows })
    }

    /// How many changes of a part are raised.
    pub fn place(&self, mon: Mon, f: Feeder) -> u32
        requires { HasPlace self.now mon.0 f.0 }
        ensures { result ≡ place_of self.now mon.0 f.0 }
    {
        self.rows[mon.0 as usize - 1][f.0 as usize - 1]
    }

    /// One more change of a part is raised.
    pub fn raise(&mut self, mon: Mon, f: Feeder)
        requires place { HasPlace self.old mon.0 f.0 }
        requires fits { place_of self.old mon.0 f.0 < 2 ^ 32 - 1 }
        ensures { self.new ≡ raised self.old mon.0 f.0 }
    {
        self.rows[mon.0 as usize - 1][f.0 as usize - 1] += 1;
    }
}
