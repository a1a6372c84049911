//! The seats of a hub, at which admitted monitors are heard and told what was sent to them.

ghost use Rattle.std.specs.Prelude.{◌≡◌, ◌↔◌, ◌-◌, [], true, None, Some, IfOk, IsTrue, length, slice_set, replicate};
ghost use Rattle.tk_journal.specs.Laws.{IsMonitor};
ghost use Rattle.tk_journal.specs.Legal.{inputs_of};
ghost use Rattle.tk_journal.specs.Links.{frames_to};
ghost use Rattle.tk_hub.specs.Seats.{AreSeats, EachShuts, HasGiven, IsAllGiven, IsFree, SeatShuts, SeatsView};
ghost use Rattle.tk_hub.specs.Seats.{admits, link_of, with_link, with_seat};
ghost use Rattle.tk_hub.specs.Slot.{HearsOneSeat, HearsSeat, SeatSays};
ghost use Rattle.tk_hub.specs.Turn.{EachSaid, Hears, goes_on, joined};
ghost use Rattle.tk_hub.specs.Visitor.{HasGreeted};
ghost use Rattle.tk_hub.specs.declared.course.HubTurn.{HubTurn as Turned};

mod ending;
mod piping;
mod retuning;

use crate::course::HubTurn;
use crate::desk::Desk;
use crate::seat::{has_given, hear, hear_one, is_open, say, shut};
use std::alloc::Global;
use std::marker::Model;
use tk_base::{Mon, NoMemory};
use tk_coord::Coordinator;
use tk_end::Link;
use tk_wire::{Pushed, Wire};

/// The coordinator with a seat for each monitor, which is taken once that has greeted.
#[derive(Drop)]
pub struct Seats<W: Wire> {
    run: u64,
    desk: Desk,
    links: Vec<Option<Link<W>>>,
}

impl<W: Wire> Model for Seats<W> {
    ghost use Rattle.tk_hub.specs.Seats.{AreSeats, SeatsView};

    ghost Value = { SeatsView W };

    ghost view = { λ s. record {
      run = s.run;
      coordinator = s.desk.coordinator;
      links = s.links.items;
    } };

    ghost invariant = { λ s. AreSeats (record {
      run = s.run;
      coordinator = s.desk.coordinator;
      links = s.links.items;
    }) };
}

/// So many free seats.
fn free_seats<W: Wire + Drop>(alloc: Global, count: u32) -> Result<Vec<Option<Link<W>>>, NoMemory>
    ensures { IfOk result (λ seats. seats.items ≡ replicate count None) }
{
    let mut seats = Vec::with_capacity(alloc, count as usize)?;
    for _ in 0..count {
        seats.push_reserved(None);
    }
    Ok(seats)
}

impl<W: Wire + Drop> Seats<W> {
    /// All seats are free.
    pub fn new(alloc: Global, coordinator: Coordinator, run: u64) -> Result<Seats<W>, NoMemory>
        requires { inputs_of coordinator.journal ≡ [] }
        ensures { IfOk result (λ s. s ≡ record {
          run = run;
          coordinator = coordinator;
          links = replicate coordinator.settings.monitors None;
        }) }
    {
        let Ok(links) = free_seats(alloc, coordinator.settings().monitors()) else {
            drop(coordinator);
            return Err(NoMemory);
        };
        // The journal is read for its clause, that it is legal.
        let _ = coordinator.journal();
        Ok(Seats {
            run,
            desk: Desk { coordinator },
            links,
        })
    }
}

impl<W: Wire + Drop> Seats<W> {
    /// The coordinator.
    pub fn coordinator(&self) -> &Coordinator
        ensures value { result.now ≡ self.now.coordinator }
        ensures kept { AreSeats self.now }
    {
        &self.desk.coordinator
    }

    fn monitors(&self) -> u32
        ensures value { result ≡ self.now.coordinator.settings.monitors }
        ensures kept { AreSeats self.now }
    {
        self.desk.coordinator.settings().monitors()
    }

    /// Takes frames at one seat.
    fn hear_at(&mut self, mon: Mon) -> HubTurn
        requires { IsMonitor self.old.coordinator.settings mon.0 }
        ensures hears { HearsSeat mon.0 result self.old self.new }
        ensures rest { self.new ≡ with_seat mon.0 self.new self.old }
        ensures kept { AreSeats self.new }
    {
        hear(&mut self.links[mon.0 as usize - 1], &mut self.desk, mon)
    }

    /// Takes frames of each monitor, ascending.
    fn hear(&mut self) -> HubTurn
        ensures hears { Hears result self.old self.new }
        ensures unwritten { result ≡ HubTurn.WriteFailed → ⊥ }
        ensures kept { AreSeats self.new }
    {
        let mut turn = HubTurn::Quiet;
        for place in 0..self.monitors() {
            let heard = self.hear_at(Mon(place + 1));
            turn = turn.joined(heard);
            if !heard.goes_on() {
                return heard;
            }
        }
        turn
    }

    /// Says at one seat what was sent to its monitor and is not said.
    pub fn say_at(&mut self, mon: Mon) -> Result<Pushed, NoMemory>
        requires { IsMonitor self.old.coordinator.settings mon.0 }
        ensures says { SeatSays mon.0 self.old.coordinator result (link_of self.old.links mon.0) (link_of self.new.links mon.0) }
        ensures rest { self.new ≡ record self.old { links = with_link mon.0 self.new.links self.old.links } }
        ensures kept { AreSeats self.new }
    {
        say(&mut self.links[mon.0 as usize - 1], &self.desk, mon)
    }

    /// Says to each monitor, ascending, what was sent to it.
    fn say(&mut self) -> HubTurn
        ensures rest { self.new ≡ record self.old { links = self.new.links } }
        ensures heard { (old : SeatsView W) (turn : Turned)
            → goes_on turn ≡ true → Hears turn old self.old → Hears (joined turn result) old self.new }
        ensures said { goes_on result ≡ true → EachSaid self.new.coordinator self.new.links }
        ensures unwritten { result ≡ HubTurn.WriteFailed → ⊥ }
        ensures kept { AreSeats self.new }
    {
        for place in 0..self.monitors() {
            match self.say_at(Mon(place + 1)) {
                Ok(Pushed::Empty) => {}
                Ok(Pushed::NotYet) => {}
                Ok(Pushed::Failed) => return HubTurn::Failed,
                Err(_) => return HubTurn::NoMemory,
            }
        }
        HubTurn::Quiet
    }

    /// Takes frames of each monitor, at most 64 pieces each, and then says to each what was sent to it.
    pub fn exchange(&mut self) -> HubTurn
        ensures hears { Hears result self.old self.new }
        ensures said { goes_on result ≡ true → EachSaid self.new.coordinator self.new.links }
        ensures unwritten { result ≡ HubTurn.WriteFailed → ⊥ }
        ensures kept { AreSeats self.new }
    {
        let turn = self.hear();
        if !turn.goes_on() {
            return turn;
        }
        turn.joined(self.say())
    }

    /// Takes the next frame at one seat.
    pub fn hear_one(&mut self, mon: Mon) -> HubTurn
        requires { IsMonitor self.old.coordinator.settings mon.0 }
        ensures hears { HearsOneSeat mon.0 result self.old self.new }
        ensures rest { self.new ≡ with_seat mon.0 self.new self.old }
        ensures kept { AreSeats self.new }
    {
        hear_one(&mut self.links[mon.0 as usize - 1], &mut self.desk, mon)
    }

    /// The number of the run.
    pub fn run(&self) -> u64
        ensures { result ≡ self.now.run }
    {
        self.run
    }

    /// Whether there is such a monitor, and its seat is free.
    pub fn is_free(&self, mon: Mon) -> bool
        ensures { IsTrue result ↔ IsFree mon.0 self.now.coordinator.settings.monitors self.now.links }
    {
        0 < mon.0 && mon.0 <= self.monitors() && self.links[mon.0 as usize - 1].is_none()
    }

    /// Whether a monitor is admitted, and its link is not shut.
    pub fn is_admitted(&self, mon: Mon) -> bool
        ensures { result ≡ admits self.now.links mon.0 }
    {
        0 < mon.0 && mon.0 as usize <= self.links.len() && is_open(&self.links[mon.0 as usize - 1])
    }

    /// Seats a monitor that has greeted.
    pub fn seat(&mut self, mon: Mon, link: Link<W>)
        requires free { IsFree mon.0 self.old.coordinator.settings.monitors self.old.links }
        requires greeted { HasGreeted self.old.run mon link }
        requires unsaid { link.written ≡ 0 }
        ensures value { self.new ≡ record self.old { links = slice_set self.old.links (mon.0 - 1) (Some link) } }
        ensures kept { AreSeats self.new }
    {
        // By name: an assignment would drop each part of what was there, which is dear to prove.
        drop(self.links[mon.0 as usize - 1].replace(link));
    }

    /// Shuts the link of one seat.
    fn shut_at(&mut self, mon: Mon)
        requires { IsMonitor self.old.coordinator.settings mon.0 }
        ensures shuts { SeatShuts (link_of self.old.links mon.0) (link_of self.new.links mon.0) }
        ensures rest { self.new ≡ record self.old { links = with_link mon.0 self.new.links self.old.links } }
        ensures kept { AreSeats self.new }
    {
        shut(&mut self.links[mon.0 as usize - 1]);
    }

    /// Shuts every link.
    pub fn shut(&mut self)
        ensures rest { self.new ≡ record self.old { links = self.new.links } }
        ensures shut { EachShuts self.old.links self.new.links }
        ensures kept { AreSeats self.new }
    {
        for place in 0..self.monitors() {
            self.shut_at(Mon(place + 1));
        }
    }

    /// Whether all that was sent to a monitor is given.
    fn has_said(&self, mon: Mon) -> bool
        requires { IsMonitor self.now.coordinator.settings mon.0 }
        ensures { IsTrue result
            ↔ HasGiven (length (frames_to mon.0 self.now.coordinator.journal)) (link_of self.now.links mon.0) }
    {
        let count = self.desk.coordinator.sent(mon);
        has_given(&self.links[mon.0 as usize - 1], count)
    }

    /// Whether all that was sent is given, to each monitor.
    pub fn has_said_all(&self) -> bool
        ensures { IsTrue result ↔ IsAllGiven self.now.coordinator self.now.links }
    {
        for place in 0..self.monitors() {
            if !self.has_said(Mon(place + 1)) {
                return false;
            }
        }
        true
    }
}
