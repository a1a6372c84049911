//! The order of several queries, and how its lines are read as events.

ghost use Rattle.std.specs.Prelude.{◌≡◌, ◌<◌, IfOk, IfErr, OnOk, Ok, Some, length, slice_get};
ghost use Rattle.tk_input.specs.Order.{words};
ghost use Rattle.tk_multi.specs.Order.{AddsLine, IsFault, event_in, event_of_two as event_meant, line_added, multi_order_of, ordered, query_number as query_meant, raise_in};

use crate::event::MultiEvent;
use std::alloc::Global;
use std::marker::Model;
use tk_base::{Feeder, Mon};
use tk_input::{Lines, OrderFault, number_of, split_word};

/// The most digits of the number of a query.
const QUERY_DIGITS: usize = 2;

/// The events of an order file of several queries in order, each with its line.
#[derive(Debug, Drop)]
pub struct MultiOrder {
    events: Vec<MultiEvent>,
    lines: Vec<u32>,
}

impl Model for MultiOrder {
    ghost use Rattle.std.specs.Prelude.{◌≡◌, length};
    ghost use Rattle.tk_multi.specs.Order.{MultiOrderView};

    ghost Value = { MultiOrderView };

    ghost view = { λ o. record { events = o.events.items; lines = o.lines.items } };

    ghost invariant = { λ o. length o.events.items ≡ length o.lines.items };
}

fn query_number(word: &[u8]) -> Option<u32>
    ensures { result ≡ query_meant word.now }
{
    if word.len() <= QUERY_DIGITS {
        number_of(word)
    } else {
        None
    }
}

fn raise_of(mon: &[u8], feeder: &[u8]) -> Option<MultiEvent>
    ensures { result ≡ raise_in mon.now feeder.now }
{
    Some(MultiEvent::Raise(Mon(number_of(mon)?), Feeder(number_of(feeder)?)))
}

fn event_of_two(verb: &[u8], first: &[u8], second: &[u8]) -> Option<MultiEvent>
    ensures { result ≡ event_meant verb.now first.now second.now }
{
    if verb == b"raise".as_slice() {
        raise_of(first, second)
    } else if verb == b"check".as_slice() {
        Some(MultiEvent::Check(query_number(first)?, Mon(number_of(second)?)))
    } else if verb == b"up".as_slice() {
        Some(MultiEvent::Up(query_number(first)?, Mon(number_of(second)?)))
    } else if verb == b"down".as_slice() {
        Some(MultiEvent::Down(query_number(first)?, Mon(number_of(second)?)))
    } else {
        None
    }
}

fn event_of(line: &[u8]) -> Option<MultiEvent>
    ensures { result ≡ event_in (words line.now) }
{
    let (verb, rest) = split_word(line);
    let (first, rest) = split_word(rest?);
    let (second, more) = split_word(rest?);
    match more {
        None => event_of_two(verb, first, second),
        Some(_) => None,
    }
}

fn take_line(
    events: &mut Vec<MultiEvent>,
    lines: &mut Vec<u32>,
    number: u32,
    line: &[u8],
) -> Result<(), OrderFault>
    ensures ok { OnOk result (AddsLine (number, line.now)
        (ordered events.old.items lines.old.items) (ordered events.new.items lines.new.items)) }
    ensures err { IfErr result (λ e. IsFault e
        (line_added (ordered events.old.items lines.old.items) (number, line.now))) }
    ensures pairs { OnOk result (length events.old.items ≡ length lines.old.items
        → length events.new.items ≡ length lines.new.items) }
{
    let Some(event) = event_of(line) else {
        return Err(OrderFault::BadOrder(number));
    };
    events.push(event)?;
    lines.push(number)?;
    Ok(())
}

impl MultiOrder {
    /// Reads one event a line, in one pass over the bytes.
    pub fn read(alloc: Global, bytes: &[u8]) -> Result<MultiOrder, OrderFault>
        ensures ok { IfOk result (λ order. multi_order_of bytes.now ≡ Ok order) }
        ensures err { IfErr result (λ e. IsFault e (multi_order_of bytes.now)) }
    {
        let mut events = Vec::new(alloc);
        let mut lines = Vec::new(alloc);
        let mut left = Lines::new(bytes);
        while let Some((number, line)) = left.next() {
            take_line(&mut events, &mut lines, number, line)?;
        }
        Ok(MultiOrder { events, lines })
    }

    /// How many events there are.
    pub fn len(&self) -> usize
        ensures { result ≡ length self.now.events }
    {
        self.events.len()
    }

    /// The event at a place from 0.
    pub fn at(&self, i: usize) -> MultiEvent
        requires { i < length self.now.events }
        ensures { slice_get self.now.events i ≡ Some result }
    {
        self.events[i]
    }

    /// The line of the event at a place from 0. Lines count from 1, with the empty ones.
    pub fn line(&self, i: usize) -> u32
        requires { i < length self.now.events }
        ensures { slice_get self.now.lines i ≡ Some result }
    {
        self.lines[i]
    }
}
