//! The trails of the monitors.

ghost use Rattle.tk_frames.specs.Reading.{as_at};
ghost use Rattle.tk_trace.specs.Reading.{Gives, entry_at, frame_at, is_one_of, number_at, raised as raised_of, said as said_of, tested_at, times_at, took as took_of, trail_at, trails_at};
ghost use Rattle.tk_verify.specs.Recorded.{trails_in};

use super::fields::{byte, u64_at};
use super::frames::kept_frame;
use crate::fault::ParseFault;
use std::alloc::Global;
use tk_base::{Feeder, Mon};
use tk_input::Logs;
use tk_trail::Entry;

fn raised(feeders: u32, bytes: &[u8]) -> Result<(Entry, &[u8]), ParseFault>
    ensures { Gives (λ x. (x.0, x.1.now)) result (as_at raised_of (tested_at (is_one_of feeders) (number_at 1)) bytes.now) }
{
    let (feeder, rest) = byte(bytes)?;
    let feeder = feeder as u32;
    if feeder == 0 || feeder > feeders {
        return Err(ParseFault::NotATrace);
    }
    Ok((Entry::Raised(Feeder(feeder)), rest))
}

fn took(alloc: Global, bytes: &[u8]) -> Result<(Entry, &[u8]), ParseFault>
    ensures { Gives (λ x. (x.0, x.1.now)) result (as_at took_of frame_at bytes.now) }
{
    let (frame, rest) = kept_frame(alloc, bytes)?;
    Ok((Entry::Took(frame), rest))
}

fn said(alloc: Global, bytes: &[u8]) -> Result<(Entry, &[u8]), ParseFault>
    ensures { Gives (λ x. (x.0, x.1.now)) result (as_at said_of frame_at bytes.now) }
{
    let (frame, rest) = kept_frame(alloc, bytes)?;
    Ok((Entry::Sent(frame), rest))
}

#[tactic(auto, unfolding(crate::specs::Reading::entry_at))]
fn entry(alloc: Global, feeders: u32, bytes: &[u8]) -> Result<(Entry, &[u8]), ParseFault>
    ensures { Gives (λ x. (x.0, x.1.now)) result (entry_at feeders bytes.now) }
{
    let [kind, rest @ ..] = bytes else {
        return Err(ParseFault::NotATrace);
    };
    match *kind {
        1 => raised(feeders, rest),
        2 => took(alloc, rest),
        3 => said(alloc, rest),
        _ => Err(ParseFault::NotATrace),
    }
}

fn entries(
    alloc: Global,
    feeders: u32,
    count: u64,
    bytes: &[u8],
) -> Result<(Vec<Entry>, &[u8]), ParseFault>
    ensures { Gives (λ x. (x.0.items, x.1.now)) result (times_at (entry_at feeders) count bytes.now) }
{
    let mut list = Vec::new(alloc);
    let mut rest = bytes;
    for _ in 0..count {
        let (item, after) = entry(alloc, feeders, rest)?;
        list.push(item)?;
        rest = after;
    }
    Ok((list, rest))
}

#[tactic(auto, unfolding(crate::specs::Reading::trail_at))]
fn trail(alloc: Global, feeders: u32, bytes: &[u8]) -> Result<(Vec<Entry>, &[u8]), ParseFault>
    ensures { Gives (λ x. (x.0.items, x.1.now)) result (trail_at feeders bytes.now) }
{
    let (count, rest) = u64_at(bytes)?;
    entries(alloc, feeders, count, rest)
}

/// A trail for each monitor of these logs.
pub fn trails<'a>(
    alloc: Global,
    logs: &Logs,
    bytes: &'a [u8],
) -> Result<(Vec<Vec<Entry>>, &'a [u8]), ParseFault>
    ensures { Gives (λ x. (trails_in x.0.items, x.1.now)) result (trails_at logs.now.logs bytes.now) }
{
    let mut list = Vec::new(alloc);
    let mut rest = bytes;
    for i in 0..logs.monitors() {
        let (item, after) = trail(alloc, logs.feeders(Mon(i + 1)), rest)?;
        list.push(item)?;
        rest = after;
    }
    Ok((list, rest))
}
