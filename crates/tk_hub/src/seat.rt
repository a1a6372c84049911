//! What a hub does at the seat of one monitor.

ghost use Rattle.std.specs.Prelude.{◌≡◌, ◌↔◌, IfSome, IsTrue, OnSome};
ghost use Rattle.tk_hub.specs.Desk.{IsDesk};
ghost use Rattle.tk_hub.specs.Lost.{is_lost_at};
ghost use Rattle.tk_hub.specs.Seats.{HasGiven, IsWithin, SeatShuts, is_used};
ghost use Rattle.tk_hub.specs.Slot.{HearsAt, HearsOneAt, SeatHears, SeatHearsOne, SeatSays};
ghost use Rattle.tk_hub.specs.Turn.{IsStopGiven};

use crate::course::HubTurn;
use crate::desk::Desk;
use tk_base::{Mon, NoMemory};
use tk_end::{Heard, Link};
use tk_wire::{Pushed, Wire};

/// Whether Stop was sent to a monitor, and is given with all before it.
fn is_stop_given<W: Wire>(link: &Link<W>, desk: &Desk, mon: Mon) -> bool
    requires { IsDesk mon.0 desk.now }
    ensures { IsTrue result ↔ IsStopGiven mon.0 desk.now.coordinator link.now }
{
    desk.coordinator.finished() && link.has_said(desk.coordinator.sent(mon))
}

/// Pulls at most 64 pieces of a monitor's link, and lets the coordinator take their frames.
fn hear_link<W: Wire>(link: &mut Link<W>, desk: &mut Desk, mon: Mon) -> HubTurn
    requires { IsDesk mon.0 desk.old }
    ensures { HearsAt mon.0 result link.old link.new desk.old desk.new }
{
    match link.hear(desk, mon) {
        Heard::Quiet => HubTurn::Quiet,
        Heard::More => HubTurn::More,
        Heard::Done => unreachable!(),
        Heard::Failed => HubTurn::Failed,
        Heard::Ended if is_stop_given(link, desk, mon) => HubTurn::Quiet,
        Heard::Ended => HubTurn::Failed,
        Heard::Refused(why) => HubTurn::Refused(mon, why),
        Heard::Bad(fault) => HubTurn::Bad(mon, fault),
        Heard::NoMemory => HubTurn::NoMemory,
    }
}

/// Pulls until a frame of a monitor's link is whole, and lets the coordinator take that one.
fn hear_one_link<W: Wire>(link: &mut Link<W>, desk: &mut Desk, mon: Mon) -> HubTurn
    requires { IsDesk mon.0 desk.old }
    ensures { HearsOneAt mon.0 result link.old link.new desk.old desk.new }
{
    match link.hear_one(desk, mon) {
        Heard::Quiet => HubTurn::Quiet,
        Heard::More => HubTurn::More,
        Heard::Done => unreachable!(),
        Heard::Failed => HubTurn::Failed,
        Heard::Ended if is_stop_given(link, desk, mon) => HubTurn::Quiet,
        Heard::Ended => HubTurn::Failed,
        Heard::Refused(why) => HubTurn::Refused(mon, why),
        Heard::Bad(fault) => HubTurn::Bad(mon, fault),
        Heard::NoMemory => HubTurn::NoMemory,
    }
}

/// The same at a seat, where nothing happens while it is free.
pub fn hear<W: Wire>(seat: &mut Option<Link<W>>, desk: &mut Desk, mon: Mon) -> HubTurn
    requires { IsDesk mon.0 desk.old }
    ensures { SeatHears mon.0 result seat.old seat.new desk.old desk.new }
{
    match seat {
        Some(link) => hear_link(link, desk, mon),
        None => HubTurn::Quiet,
    }
}

/// The same of one frame.
pub fn hear_one<W: Wire>(seat: &mut Option<Link<W>>, desk: &mut Desk, mon: Mon) -> HubTurn
    requires { IsDesk mon.0 desk.old }
    ensures { SeatHearsOne mon.0 result seat.old seat.new desk.old desk.new }
{
    match seat {
        Some(link) => hear_one_link(link, desk, mon),
        None => HubTurn::Quiet,
    }
}

/// Writes what was sent to a monitor and is not written, and gives until nothing is left to give.
pub fn say<W: Wire>(seat: &mut Option<Link<W>>, desk: &Desk, mon: Mon) -> Result<Pushed, NoMemory>
    requires peer { IsDesk mon.0 desk.now }
    requires within { IsWithin mon.0 desk.now.coordinator seat.old }
    ensures { SeatSays mon.0 desk.now.coordinator result seat.old seat.new }
{
    match seat {
        Some(link) => link.say(desk, mon),
        None => Ok(Pushed::Empty),
    }
}

/// Shuts the link of a seat that is taken.
pub fn shut<W: Wire>(seat: &mut Option<Link<W>>)
    ensures { SeatShuts seat.old seat.new }
{
    match seat {
        Some(link) => link.shut(),
        None => {}
    }
}

/// Whether the seat is taken by a link that is not shut.
pub fn is_open<W: Wire>(seat: &Option<Link<W>>) -> bool
    ensures { result ≡ is_used seat.now }
{
    match seat {
        Some(link) => !link.is_shut(),
        None => false,
    }
}

/// Whether the seat is taken, and so many frames are written and given there.
pub fn has_given<W: Wire>(seat: &Option<Link<W>>, count: usize) -> bool
    ensures { IsTrue result ↔ HasGiven count seat.now }
{
    match seat {
        Some(link) => link.has_said(count),
        None => false,
    }
}

/// Whether the wire of the seat failed, or has ended.
pub fn is_lost<W: Wire>(seat: &Option<Link<W>>) -> bool
    ensures { result ≡ is_lost_at seat.now }
{
    match seat {
        Some(link) => 0 < link.wire().faults() || 0 < link.wire().ends(),
        None => false,
    }
}
