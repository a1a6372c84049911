//! The coordinator's table of factors, and how a reallocation changes it.

ghost use Rattle.std.specs.Prelude.{◌≡◌, ℕ, ◌<◌, ◌≤◌, IfOk, length, pos, replicate};
ghost use Rattle.tk_rows.specs.Factors.{AreBalanced, IsFactor, factor_at};
ghost use Rattle.tk_rows.specs.Replacing.{IsReplacement, changes_at, factor_in};

use crate::factors::Factors;
use crate::reallocation::Reallocation;
use std::alloc::Global;
use std::marker::Model;
use tk_base::{Mon, NoMemory, Obj};

/// The factors of all objects at all nodes, which for each object sum to zero.
#[derive(Debug, Drop)]
pub struct Table {
    monitors: u32,
    rows: Vec<Factors>,
}

impl Model for Table {
    ghost use Rattle.tk_rows.specs.Factors.{Grid, AreBalanced};

    ghost Value = { Grid };

    ghost view = { λ t. record { monitors = t.monitors; rows = t.rows.items } };

    ghost invariant = { λ t. AreBalanced (record { monitors = t.monitors; rows = t.rows.items }) };
}

impl Table {
    /// A table of zeros.
    pub fn new(alloc: Global, objects: u32, monitors: u32) -> Result<Table, NoMemory>
        ensures monitors { IfOk result (λ t. t.monitors ≡ monitors) }
        ensures objects { IfOk result (λ t. length t.rows ≡ objects) }
        ensures zeros { IfOk result (λ t. (node o : ℕ) → factor_at t node o ≡ pos 0) }
    {
        let mut rows = Vec::with_capacity(alloc, objects as usize)?;
        for o in 0..objects {
            let row = Factors::new(alloc, monitors)?;
            rows.push(row)?;
        }
        Ok(Table { monitors, rows })
    }

    /// The coordinator's own factor.
    pub fn own(&self, o: Obj) -> i128
        requires some { 0 < o.0 }
        requires within { o.0 ≤ length self.now.rows }
        ensures value { result ≡ factor_at self.now 0 o.0 }
        ensures size { IsFactor result }
        ensures balanced { AreBalanced self.now }
    {
        let row = &self.rows[o.0 as usize - 1];
        row.at(0)
    }

    /// The factor of an object at a monitor.
    pub fn at(&self, mon: Mon, o: Obj) -> i128
        requires some { 0 < o.0 }
        requires within { o.0 ≤ length self.now.rows }
        requires some_monitor { 0 < mon.0 }
        requires monitor { mon.0 ≤ self.now.monitors }
        ensures value { result ≡ factor_at self.now mon.0 o.0 }
        ensures size { IsFactor result }
        ensures balanced { AreBalanced self.now }
    {
        let row = &self.rows[o.0 as usize - 1];
        row.at(mon.0)
    }

    /// Tells a caller's proof what every table keeps. It does nothing.
    pub fn promise(&self)
        ensures { AreBalanced self.now }
    {
        let _ = &self.rows;
    }

    /// Costs the factors that the reallocation names.
    pub fn replace(&mut self, change: &Reallocation)
        requires { IsReplacement self.old change.now }
        ensures monitors { self.new.monitors ≡ self.old.monitors }
        ensures objects { length self.new.rows ≡ length self.old.rows }
        ensures factors { (node o : ℕ) → 0 < o
            → factor_at self.new node o ≡ factor_in (changes_at change.now node) o (factor_at self.old node o) }
    {
        for place in 0..change.own.len() {
            let (o, own) = change.own.at(place);
            let row = &mut self.rows[o.0 as usize - 1];
            row.replace(own, change.at.as_slice(), place);
        }
    }
}
