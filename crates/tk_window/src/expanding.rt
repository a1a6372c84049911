//! How a log in ticks is expanded: what enters the window is added, and what leaves it is taken back.

ghost use Rattle.std.specs.Prelude.{◌≡◌, ℕ, ◌<◌, ◌≤◌, ◌^◌, ◌++◌, IfOk, IfErr, OnOk, Ok, All, length, unsigned_abs};
ghost use Rattle.tk_window.specs.Ticks.{AreOver, IsTick};
ghost use Rattle.tk_window.specs.Window.{IsExpandFault, SumsToWindow, expanded_of, step_to, up_to, withdrawn};

use crate::expanded::Expanded;
use crate::fault::ExpandFault;
use crate::ticked::Ticked;
use std::alloc::Global;
use tk_base::NoMemory;
use tk_input::{Change, Changes, Part};

const MAX_CHANGES: u64 = 1_000_000;

/// Takes some changes back.
fn withdraw(list: &mut Changes, changes: &Changes) -> Result<(), NoMemory>
    requires { All (λ c. unsigned_abs c.1 < 2 ^ 127) changes.now }
    ensures { OnOk result (list.new ≡ list.old ++ withdrawn changes.now) }
{
    for i in 0..changes.len() {
        let change = changes.at(i);
        list.push(Change {
            obj: change.obj,
            by: -change.by,
        })?;
    }
    Ok(())
}

/// Adds some changes.
fn add(list: &mut Changes, changes: &Changes) -> Result<(), NoMemory>
    ensures { OnOk result (list.new ≡ list.old ++ changes.now) }
{
    for i in 0..changes.len() {
        list.push(changes.at(i))?;
    }
    Ok(())
}

/// Moves the window to a tick.
fn step(list: &mut Changes, ticked: &Ticked, width: u32, t: u32) -> Result<(), NoMemory>
    requires { IsTick ticked.now t }
    ensures { OnOk result (list.new ≡ list.old ++ step_to width ticked.now t) }
{
    if t > width {
        withdraw(list, ticked.changes(t - width))?;
    }
    add(list, ticked.changes(t))
}

/// How many changes such a step has.
fn step_length(ticked: &Ticked, width: u32, t: u32) -> u64
    requires { IsTick ticked.now t }
    ensures value { result ≡ length (step_to width ticked.now t) }
    ensures most { result ≤ 2000000 }
{
    let leaving = if t > width {
        ticked.length(t - width)
    } else {
        0
    };
    u64::from(leaving) + u64::from(ticked.length(t))
}

/// How many changes the expanded log would have.
fn expanded_length(ticked: &Ticked, width: u32) -> u64
    ensures { result ≡ length (up_to width ticked.now (length ticked.now)) }
{
    let mut all = 0;
    for i in 0..ticked.ticks() {
        all += step_length(ticked, width, i + 1);
    }
    all
}

/// The log that a window makes of a log in ticks. Takes time and room in proportion to the log, whatever
/// the width. Clones of its part are cheap.
pub fn expand(alloc: Global, ticked: &Ticked, width: u32) -> Result<Expanded, ExpandFault>
    requires some { 1 ≤ width }
    requires most { width ≤ 1000000 }
    ensures ok { IfOk result (λ e. expanded_of width ticked.now ≡ Ok (record { part = e.part; ends = e.ends.items })) }
    ensures err { IfErr result (λ e. IsExpandFault e (expanded_of width ticked.now)) }
    // At the end of each tick it sums to the window.
    ensures sums { IfOk result (λ e. SumsToWindow width ticked.now e.part e.ends.items) }
    // What it is within.
    ensures objects { IfOk result (λ e. (n : ℕ) → All (AreOver n) ticked.now → AreOver n e.part) }
    ensures few { IfOk result (λ e. length e.part ≤ 1000000) }
{
    let length = expanded_length(ticked, width);
    if length > MAX_CHANGES {
        return Err(ExpandFault::TooLong { length });
    }
    let mut list = Changes::new(alloc);
    let mut ends = Vec::with_capacity(alloc, ticked.ticks() as usize)?;
    for i in 0..ticked.ticks() {
        step(&mut list, ticked, width, i + 1)?;
        ends.push(list.len() as u32)?;
    }
    list.shrink_to_fit();
    let part = Part::new(list).share(alloc)?;
    Ok(Expanded { part, ends })
}
