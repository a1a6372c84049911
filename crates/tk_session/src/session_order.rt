//! The order of a run with restarts, and how its lines are read.

ghost use Rattle.std.specs.Prelude.{◌≡◌, ◌<◌, ◌≤◌, if◌then◌else◌, IfOk, IfErr, OnOk, Ok, length, slice_get, Some};
ghost use Rattle.tk_input.specs.Order.{IsFault};
ghost use Rattle.tk_session.specs.Order.{IsReadAs, is_restart, line_added, line_in, line_taken, lines_of, numbers_of, session_order_of, stretches};

use crate::session_line::SessionLine;
use std::alloc::Global;
use std::marker::Model;
use tk_base::NoMemory;
use tk_input::{Lines, OrderFault, event_of};

/// How often a coordinator may restart.
const MOST_RESTARTS: u32 = 15;

/// The line at which it does.
const RESTART: &[u8] = b"restart";

/// The events and restarts of an order file in order, each behind the number of its line.
#[derive(Debug, Drop)]
pub struct SessionOrder {
    lines: Vec<(u32, SessionLine)>,
    restarts: u32,
}

impl Model for SessionOrder {
    ghost use Rattle.std.specs.Prelude.{ℕ, List};
    ghost use Rattle.tk_session.specs.Order.{HasRestarts};
    ghost use Rattle.tk_session.specs.declared.session_line.SessionLine.{SessionLine};

    ghost Value = { List (ℕ × SessionLine) };

    ghost view = { λ o. o.lines.items };

    ghost invariant = { λ o. HasRestarts o.lines.items o.restarts };
}

/// How many restarts a line is.
fn restarts_of(line: &SessionLine) -> u32
    ensures { result ≡ (if is_restart line.now then 1 else 0) }
{
    match line {
        SessionLine::Step(_) => 0,
        SessionLine::Restart => 1,
    }
}

fn line_of(alloc: Global, line: &[u8]) -> Option<Result<SessionLine, NoMemory>>
    ensures { IsReadAs result (line_in line.now) }
{
    if line == RESTART {
        return Some(Ok(SessionLine::Restart));
    }
    match event_of(alloc, line)? {
        Ok(event) => Some(Ok(SessionLine::Step(event))),
        Err(no_memory) => Some(Err(no_memory)),
    }
}

impl SessionOrder {
    /// Reads one event or `restart` a line, in one pass over the bytes. A restart behind 15 others is a fault.
    pub fn read(alloc: Global, bytes: &[u8]) -> Result<SessionOrder, OrderFault>
        ensures ok { IfOk result (λ order. session_order_of bytes.now ≡ Ok order) }
        ensures err { IfErr result (λ e. IsFault e (session_order_of bytes.now)) }
    {
        let mut order = SessionOrder {
            lines: Vec::new(alloc),
            restarts: 0,
        };
        let mut left = Lines::new(bytes);
        while let Some((number, line)) = left.next() {
            order.take(alloc, number, line)?;
        }
        Ok(order)
    }

    /// Appends what a line is.
    fn take(&mut self, alloc: Global, number: u32, line: &[u8]) -> Result<(), OrderFault>
        ensures ok { OnOk result (line_added self.old (number, line.now) ≡ Ok self.new) }
        ensures err { IfErr result (λ e. IsFault e (line_added self.old (number, line.now))) }
    {
        match line_of(alloc, line) {
            Some(read) => self.push(number, read?),
            None => Err(OrderFault::BadOrder(number)),
        }
    }

    fn push(&mut self, number: u32, line: SessionLine) -> Result<(), OrderFault>
        ensures ok { OnOk result (line_taken self.old number (Some line) ≡ Ok self.new) }
        ensures err { IfErr result (λ e. IsFault e (line_taken self.old number (Some line))) }
    {
        let restarts = self.restarts + restarts_of(&line);
        if restarts > MOST_RESTARTS {
            return Err(OrderFault::BadOrder(number));
        }
        self.lines.push((number, line))?;
        self.restarts = restarts;
        Ok(())
    }

    /// How many events and restarts there are.
    pub fn len(&self) -> usize
        ensures { result ≡ length (lines_of self.now) }
    {
        self.lines.len()
    }

    /// The event or restart at a place from 0.
    pub fn at(&self, i: usize) -> &SessionLine
        requires { i < length (lines_of self.now) }
        ensures { slice_get (lines_of self.now) i ≡ Some result.now }
    {
        &self.lines[i].1
    }

    /// The line of what stands at a place from 0. Lines count from 1, with the empty ones.
    pub fn line(&self, i: usize) -> u32
        requires { i < length (lines_of self.now) }
        ensures { slice_get (numbers_of self.now) i ≡ Some result }
    {
        self.lines[i].0
    }

    /// How many sessions the order makes: one more than it has restarts, so 1 to 16.
    pub fn sessions(&self) -> u32
        ensures value { result ≡ length (stretches (lines_of self.now)) }
        ensures most { result ≤ 16 }
    {
        self.restarts + 1
    }
}
