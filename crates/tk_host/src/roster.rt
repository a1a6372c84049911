ghost use Rattle.std.specs.Prelude.{◌≡◌, ◌++◌, ◌∷◌, ◌≤◌, ◌<◌, [], false, true, IfNone, IfSome, OnErr, OnOk, length};
ghost use Rattle.tk_host.specs.Seats.{beginnings_of, has_joined, has_stand_in, is_missing};

use crate::seat::Seat;
use std::alloc::Global;
use std::marker::Model;
use tk_base::{Mon, NoMemory};
use tk_wire::Beginning;

/// The seats that are taken in a session, in order. Contracts see the seats.
#[derive(Drop)]
pub struct Roster {
    seats: Vec<Seat>,
}

impl Model for Roster {
    ghost use Rattle.std.specs.Prelude.{List};
    ghost use Rattle.tk_host.specs.declared.seat.Seat.{Seat};

    ghost Value = { List Seat };

    ghost view = { λ r. r.seats.items };
}

impl Roster {
    /// Nobody is there.
    pub fn new(alloc: Global) -> Roster
        ensures { result ≡ [] }
    {
        Roster {
            seats: Vec::new(alloc),
        }
    }

    /// How many seats are taken.
    pub fn len(&self) -> usize
        ensures { result ≡ length self.now }
    {
        self.seats.len()
    }

    /// Whether a monitor has joined.
    pub fn has(&self, mon: u64) -> bool
        ensures { result ≡ has_joined self.now mon }
    {
        for i in 0..self.seats.len() {
            if self.seats[i].joins(mon) {
                return true;
            }
        }
        false
    }

    /// Whether a stand-in sits there for a monitor.
    pub fn misses(&self, mon: u64) -> bool
        ensures { result ≡ is_missing self.now mon }
    {
        for i in 0..self.seats.len() {
            if self.seats[i].misses(mon) {
                return true;
            }
        }
        false
    }

    /// The first monitor for which a stand-in sits there, if there is one.
    pub fn missing(&self) -> Option<Mon>
        ensures none { IfNone result (has_stand_in self.now ≡ false) }
        ensures some { IfSome result (λ mon. is_missing self.now mon.0 ≡ true) }
    {
        for i in 0..self.seats.len() {
            if let Seat::Missing(mon) = &self.seats[i] {
                return Some(*mon);
            }
        }
        None
    }

    /// The least of so many monitors that has no seat, if there is one.
    pub fn absent(&self, monitors: u32) -> Option<Mon>
        ensures { IfSome result (λ mon. (0 < mon.0) × (mon.0 ≤ monitors)) }
    {
        for i in 0..monitors {
            let mon = u64::from(i) + 1;
            if !self.has(mon) && !self.misses(mon) {
                return Some(Mon(i + 1));
            }
        }
        None
    }

    /// One more seat is taken.
    pub fn seat(&mut self, seat: Seat) -> Result<(), NoMemory>
        ensures ok { OnOk result (self.new ≡ self.old ++ seat ∷ []) }
        ensures err { OnErr result (self.new ≡ self.old) }
    {
        self.seats.push(seat)?;
        Ok(())
    }

    /// How the streams of a monitor began; no stream is known of one that has not joined.
    pub fn beginnings(&self, mon: u64) -> &[Beginning]
        ensures { result.now ≡ beginnings_of self.now mon }
    {
        for i in 0..self.seats.len() {
            if self.seats[i].joins(mon) {
                return self.seats[i].beginnings();
            }
        }
        &[]
    }
}
