//! One row of the table of factors.

ghost use Rattle.std.specs.Prelude.{◌≡◌, ◌+◌, ◌<◌, ◌∷◌, IfOk, length, pos, replicate, slice_index_or};
ghost use Rattle.std.specs.List.{All};
ghost use Rattle.tk_rows.specs.Writing.{named_at, written};

use crate::mon_change::MonChange;
use std::alloc::Global;
use std::marker::Model;
use tk_base::NoMemory;

/// The factors of one object, the coordinator's own first, then by monitor.
#[derive(Debug, Drop)]
pub struct Factors {
    list: Vec<i128>,
}

impl Model for Factors {
    ghost use Rattle.std.specs.Prelude.{ℤ, List};

    ghost Value = { List ℤ };

    ghost view = { λ f. f.list.items };
}

impl Factors {
    /// Factors of zero, the coordinator's and each monitor's.
    pub fn new(alloc: Global, monitors: u32) -> Result<Factors, NoMemory>
        ensures { IfOk result (λ f. f ≡ replicate (monitors + 1) (pos 0)) }
    {
        let list = vec![in alloc; 0i128; monitors as usize + 1]?;
        Ok(Factors { list })
    }

    /// The factor at a node, 0 for the coordinator.
    pub fn at(&self, node: u32) -> i128
        requires { node < length self.now }
        ensures { result ≡ slice_index_or self.now node (pos 0) }
    {
        self.list[node as usize]
    }

    /// Sets the coordinator's factor, and that of each named monitor to the one at this place of its changes.
    pub fn replace(&mut self, own: i128, at: &[MonChange], place: usize)
        requires nodes { All (λ c. c.mon.0 < length self.old) at.now }
        requires places { All (λ c. place < length c.changes) at.now }
        requires some { 0 < length self.old }
        ensures { self.new ≡ written self.old ((0, own) ∷ named_at at.now place) }
    {
        self.list[0] = own;
        for change in at {
            let (_, factor) = change.changes.at(place);
            self.list[change.mon.0 as usize] = factor;
        }
    }
}
