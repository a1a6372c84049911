//! The order of a run, and how its lines are read as events.

ghost use Rattle.std.specs.Prelude.{◌≡◌, ◌<◌, IfOk, IfErr, OnOk, Ok, length, slice_get, Some};
ghost use Rattle.tk_input.specs.Order.{AddsLine, IsFault, IsLineFault, IsReadAs, event_in, event_of_one as of_one, event_of_two as of_two, is_short as is_short_word, line_added, number_in, order_of, ordered, raise_at, retune_at, words};
ghost use Rattle.tk_input.specs.declared.order.OrderFault.TheVariants.{NoMemory as OutOfMemory};

use crate::event::Event;
use crate::lines::{Lines, split_word};
use std::alloc::{AllocFailed, Global};
use std::error::Error;
use std::fmt;
use std::marker::Model;
use tk_base::{Feeder, Mon, NoMemory, digits_of, short_of};

/// Why a file is no order. The number is that of the line, from 1.
#[derive(Clone, Copy, Debug, PartialEq, Eq)]
pub enum OrderFault {
    BadOrder(u32),
    NoMemory,
}

impl fmt::Display for OrderFault {
    fn fmt<W: fmt::Write>(&self, f: &mut fmt::Formatter<W>) -> fmt::Result {
        match self {
            OrderFault::BadOrder(n) => write!(f, "line {n}: bad order"),
            OrderFault::NoMemory => f.write_str("out of memory"),
        }
    }
}

impl Error for OrderFault {}

impl From<NoMemory> for OrderFault {
    ghost from_gives = { λ _ e. e ≡ OutOfMemory };

    fn from(_error: NoMemory) -> OrderFault {
        OrderFault::NoMemory
    }
}

impl<T: Drop> From<AllocFailed<T>> for OrderFault {
    ghost from_gives = { λ _ e. e ≡ OutOfMemory };

    fn from(_error: AllocFailed<T>) -> OrderFault {
        OrderFault::NoMemory
    }
}

/// The events of an order file in order, each with its line.
#[derive(Debug, Drop)]
pub struct Order {
    events: Vec<Event>,
    lines: Vec<u32>,
}

impl Model for Order {
    ghost use Rattle.std.specs.Prelude.{◌≡◌, length};
    ghost use Rattle.tk_input.specs.Order.{OrderView};

    ghost Value = { OrderView };

    ghost view = { λ o. record { events = o.events.items; lines = o.lines.items } };

    ghost invariant = { λ o. length o.events.items ≡ length o.lines.items };
}

fn is_short(word: &[u8]) -> bool
    ensures { result ≡ is_short_word word.now }
{
    match word {
        [] => false,
        [first, rest @ ..] => *first != b'0' && rest.len() <= 2,
    }
}

/// The number that a word of 1 to 3 digits writes, without a leading zero.
pub fn number_of(word: &[u8]) -> Option<u32>
    ensures { result ≡ number_in word.now }
{
    if is_short(word) {
        Some(digits_of(word)? as u32)
    } else {
        None
    }
}

fn raise_of(mon: &[u8], feeder: &[u8]) -> Option<Event>
    ensures { result ≡ raise_at mon.now feeder.now }
{
    Some(Event::Raise(Mon(number_of(mon)?), Feeder(number_of(feeder)?)))
}

fn event_of_one(verb: &[u8], mon: &[u8]) -> Option<Event>
    ensures { result ≡ of_one verb.now mon.now }
{
    if verb == b"check".as_slice() {
        Some(Event::Check(Mon(number_of(mon)?)))
    } else if verb == b"up".as_slice() {
        Some(Event::Up(Mon(number_of(mon)?)))
    } else if verb == b"down".as_slice() {
        Some(Event::Down(Mon(number_of(mon)?)))
    } else {
        None
    }
}

fn retune_of(alloc: Global, k: &[u8], epsilon: &[u8]) -> Option<Result<Event, NoMemory>>
    ensures { IsReadAs result (retune_at k.now epsilon.now) }
{
    Some(Event::retune(alloc, short_of(k)?, digits_of(epsilon)?))
}

fn event_of_two(
    alloc: Global,
    verb: &[u8],
    first: &[u8],
    second: &[u8],
) -> Option<Result<Event, NoMemory>>
    ensures { IsReadAs result (of_two verb.now first.now second.now) }
{
    if verb == b"raise".as_slice() {
        Some(Ok(raise_of(first, second)?))
    } else if verb == b"retune".as_slice() {
        retune_of(alloc, first, second)
    } else {
        None
    }
}

/// The event that a line is, if it is one.
pub fn event_of(alloc: Global, line: &[u8]) -> Option<Result<Event, NoMemory>>
    ensures { IsReadAs result (event_in (words line.now)) }
{
    let (verb, rest) = split_word(line);
    let (first, rest) = split_word(rest?);
    let Some(rest) = rest else {
        return Some(Ok(event_of_one(verb, first)?));
    };
    let (second, more) = split_word(rest);
    match more {
        None => event_of_two(alloc, verb, first, second),
        Some(_) => None,
    }
}

fn take_line(
    alloc: Global,
    events: &mut Vec<Event>,
    lines: &mut Vec<u32>,
    number: u32,
    line: &[u8],
) -> Result<(), OrderFault>
    ensures ok { OnOk result (AddsLine (number, line.now)
        (ordered events.old.items lines.old.items) (ordered events.new.items lines.new.items)) }
    ensures err { IfErr result (λ e. IsLineFault e
        (line_added (ordered events.old.items lines.old.items) (number, line.now))) }
    ensures pairs { OnOk result (length events.old.items ≡ length lines.old.items
        → length events.new.items ≡ length lines.new.items) }
{
    let Some(event) = event_of(alloc, line) else {
        return Err(OrderFault::BadOrder(number));
    };
    events.push(event?)?;
    lines.push(number)?;
    Ok(())
}

impl Order {
    /// Reads one event a line, in one pass over the bytes.
    pub fn read(alloc: Global, bytes: &[u8]) -> Result<Order, OrderFault>
        ensures ok { IfOk result (λ order. order_of bytes.now ≡ Ok order) }
        ensures err { IfErr result (λ e. IsFault e (order_of bytes.now)) }
    {
        let mut events = Vec::new(alloc);
        let mut lines = Vec::new(alloc);
        let mut left = Lines::new(bytes);
        while let Some((number, line)) = left.next() {
            take_line(alloc, &mut events, &mut lines, number, line)?;
        }
        Ok(Order { events, lines })
    }

    /// How many events there are.
    pub fn len(&self) -> usize
        ensures { result ≡ length self.now.events }
    {
        self.events.len()
    }

    /// The event at a place from 0.
    pub fn at(&self, i: usize) -> &Event
        requires { i < length self.now.events }
        ensures { slice_get self.now.events i ≡ Some result.now }
    {
        &self.events[i]
    }

    /// The line of the event at a place from 0. Lines count from 1, with the empty ones.
    pub fn line(&self, i: usize) -> u32
        requires { i < length self.now.events }
        ensures { slice_get self.now.lines i ≡ Some result }
    {
        self.lines[i]
    }
}
