//! Where connections wait until their Hello: each is then seated, or closed as a stranger.

ghost use Rattle.std.specs.Prelude.{◌≡◌, ◌↔◌, ◌+◌, ◌<◌, ◌≤◌, [], None, Ok, Some};
ghost use Rattle.slab.specs.Slab.{HasRoomFor, Updates, slab_len};
ghost use Rattle.tk_frames.specs.Spelling.{IsVersion};
ghost use Rattle.tk_wire.specs.Meanings.{raised_by};
ghost use Rattle.tk_hub.specs.Door.{GreetsAt, GreetsHeld, HoldsNew, IsWelcomed, door};
ghost use Rattle.tk_hub.specs.Hub.{EachOpen};
ghost use Rattle.tk_hub.specs.Seats.{AreSeats, monitors_of};
ghost use Rattle.tk_hub.specs.Visitor.{IsUnused, hello_of};

use crate::seats::Seats;
use crate::visitor::{Greeting, Guest, Visitor};
use slab::Slab;
use std::alloc::Global;
use std::marker::Model;
use tk_base::NoMemory;
use tk_wire::Wire;

/// How many connections without a Hello are held at once.
const VISITORS: usize = 64;

/// What a hub does with a new connection.
#[derive(Clone, Copy, Debug, PartialEq, Eq)]
pub enum Admitted {
    /// It is held until its Hello.
    Kept,
    /// It is closed, since 64 connections without a Hello are held.
    Closed,
}

/// Connections that have said no Hello yet, and how many were closed as strangers.
#[derive(Drop)]
pub struct Lobby<W: Wire> {
    alloc: Global,
    held: Slab<Visitor<W>>,
    strangers: u64,
}

impl<W: Wire> Model for Lobby<W> {
    ghost use Rattle.std.specs.Prelude.{◌≤◌};
    ghost use Rattle.slab.specs.Slab.{slab_len};
    ghost use Rattle.tk_hub.specs.Door.{LobbyView};

    ghost Value = { LobbyView W };

    ghost view = { λ l. record { held = l.held; strangers = l.strangers } };

    ghost invariant = { λ l. slab_len l.held ≤ 64 };
}

impl<W: Wire + Drop> Lobby<W> {
    /// Nobody is held.
    pub fn new(alloc: Global) -> Lobby<W>
        ensures held { result.held.slots ≡ [] }
        ensures strangers { result.strangers ≡ 0 }
    {
        Lobby {
            alloc,
            held: Slab::new(alloc),
            strangers: 0,
        }
    }

    /// How many were closed as strangers.
    pub fn strangers(&self) -> u64
        ensures { result ≡ self.now.strangers }
    {
        self.strangers
    }

    /// Holds a connection until its Hello, or closes it.
    pub fn admit(&mut self, wire: W) -> Result<Admitted, NoMemory>
        requires { IsUnused W.tells (W.traffic wire) }
        ensures closed { (result ≡ Ok Admitted.Closed) ↔ (slab_len self.old.held ≡ 64) }
        ensures kept { result ≡ Ok Admitted.Kept
            → HoldsNew W.tells (W.traffic wire) (W.counts wire) wire self.old.held self.new.held }
        ensures more { result ≡ Ok Admitted.Kept → slab_len self.new.held ≡ slab_len self.old.held + 1 }
        ensures same { (result ≡ Ok Admitted.Kept → ⊥) → self.new.held.slots ≡ self.old.held.slots }
        ensures strangers { self.new.strangers ≡ self.old.strangers }
        ensures few { slab_len self.new.held ≤ 64 }
    {
        if self.held.len() >= VISITORS {
            Visitor::new(self.alloc, wire).close();
            return Ok(Admitted::Closed);
        }
        if self.held.reserve(1).is_err() {
            drop(wire);
            return Err(NoMemory);
        }
        self.held.insert_reserved(Visitor::new(self.alloc, wire));
        Ok(Admitted::Kept)
    }

    /// Holds a connection on.
    fn hold(&mut self, visitor: Visitor<W>)
        requires room { HasRoomFor self.old.held 1 }
        requires few { slab_len self.old.held < 64 }
        ensures updates { Updates self.old.held self.new.held self.old.held.vacant_key (Some visitor) }
        ensures count { slab_len self.new.held ≡ slab_len self.old.held + 1 }
        ensures strangers { self.new.strangers ≡ self.old.strangers }
    {
        self.held.insert_reserved(visitor);
    }

    /// Closes a connection and counts it.
    fn turn_away(&mut self, visitor: Visitor<W>)
        ensures counts { self.new ≡ record self.old { strangers = raised_by 1 self.old.strangers } }
        ensures more { self.old.strangers ≤ self.new.strangers }
    {
        visitor.close();
        self.strangers = self.strangers.saturating_add(1);
    }

    /// Admits a guest, where there is such a monitor and it is not there yet, and else closes its connection.
    fn welcome(&mut self, seats: &mut Seats<W>, visitor: Visitor<W>, guest: Guest)
        requires greeted { visitor.front ≡ Some (hello_of seats.old.run guest) }
        requires version { IsVersion guest.version }
        ensures answer { IsWelcomed seats.old.run (monitors_of seats.old) guest.mon visitor
            (door self.old seats.old) (door self.new seats.new) }
        ensures held { self.new.held ≡ self.old.held }
        ensures more { self.old.strangers ≤ self.new.strangers }
        ensures rest { seats.new ≡ record seats.old { links = seats.new.links } }
        ensures kept { AreSeats seats.old → AreSeats seats.new }
        ensures going { EachOpen seats.old.links → EachOpen seats.new.links }
    {
        if seats.is_free(guest.mon) {
            seats.seat(guest.mon, visitor.into_link(self.alloc, guest.version));
        } else {
            self.turn_away(visitor);
        }
    }

    /// Pulls from the connection at a key until its first frame is whole, and admits or closes it.
    fn greet_at(&mut self, seats: &mut Seats<W>, key: usize) -> Result<(), NoMemory>
        ensures greets { GreetsAt W.counts seats.old.run (monitors_of seats.old) key result
            (door self.old seats.old) (door self.new seats.new) }
        ensures rest { seats.new ≡ record seats.old { links = seats.new.links } }
        ensures kept { AreSeats seats.old → AreSeats seats.new }
        ensures going { EachOpen seats.old.links → EachOpen seats.new.links }
        ensures more { self.old.strangers ≤ self.new.strangers }
        ensures few { slab_len self.new.held ≤ 64 }
    {
        let Some(mut visitor) = self.held.try_remove(key) else {
            return Ok(());
        };
        match visitor.greet(seats.run()) {
            Greeting::Nothing => {
                self.hold(visitor);
                Ok(())
            }
            Greeting::NoMemory => {
                self.hold(visitor);
                Err(NoMemory)
            }
            Greeting::Strange => {
                self.turn_away(visitor);
                Ok(())
            }
            Greeting::Hello(guest) => {
                self.welcome(seats, visitor, guest);
                Ok(())
            }
        }
    }

    /// Pulls from each connection until its first frame is whole, and admits or closes it.
    pub fn greet(&mut self, seats: &mut Seats<W>) -> Result<(), NoMemory>
        ensures greets { GreetsHeld W.counts seats.old.run (monitors_of seats.old) result
            (door self.old seats.old) (door self.new seats.new) }
        ensures rest { seats.new ≡ record seats.old { links = seats.new.links } }
        ensures kept { AreSeats seats.old → AreSeats seats.new }
        ensures going { EachOpen seats.old.links → EachOpen seats.new.links }
        ensures more { self.old.strangers ≤ self.new.strangers }
        ensures few { slab_len self.new.held ≤ 64 }
    {
        for key in 0..self.held.capacity() {
            self.greet_at(seats, key)?;
        }
        Ok(())
    }

    /// Drops all that are held.
    pub fn clear(&mut self)
        ensures held { self.new.held.slots ≡ [] }
        ensures strangers { self.new.strangers ≡ self.old.strangers }
    {
        self.held.clear();
    }
}
