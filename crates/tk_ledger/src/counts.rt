//! Frames counted by kind, for one monitor and for each.

ghost use Rattle.std.specs.Prelude.{◌≡◌, ◌<◌, length, Some, slice_get};

use std::marker::Model;

/// How many frames of each kind went over some links.
#[derive(Clone, Copy, Debug, Default, PartialEq, Eq)]
pub struct Counts {
    pub assign: u64,
    pub report: u64,
    pub collect: u64,
    pub values: u64,
    pub settled: u64,
    pub stop: u64,
}

/// The counts of each monitor, monitors ascending. Contracts see the list.
#[derive(Debug, Drop)]
pub struct PerMonitor {
    list: Vec<Counts>,
}

impl Model for PerMonitor {
    ghost use Rattle.std.specs.Prelude.{List};
    ghost use Rattle.tk_ledger.specs.declared.counts.Counts.{Counts};

    ghost Value = { List Counts };

    ghost view = { λ p. p.list.items };
}

impl PerMonitor {
    /// The counts of the monitors 1, 2, ..
    pub fn new(list: Vec<Counts>) -> PerMonitor
        ensures { result ≡ list.items }
    {
        PerMonitor { list }
    }

    /// How many monitors there are.
    pub fn len(&self) -> usize
        ensures { result ≡ length self.now }
    {
        self.list.len()
    }

    /// The counts of the monitor `i + 1`.
    pub fn at(&self, i: usize) -> &Counts
        requires { i < length self.now }
        ensures { slice_get self.now i ≡ Some result.now }
    {
        &self.list[i]
    }

    /// The counts of all, by monitor.
    pub fn as_slice(&self) -> &[Counts]
        ensures { result.now ≡ self.now }
    {
        self.list.as_slice()
    }
}
