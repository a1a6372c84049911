//! The journal.

ghost use Rattle.tk_frames.specs.Reading.{as_at};
ghost use Rattle.tk_trace.specs.Reading.{Gives, bounds_at, got as got_of, journal_at, link_at, noted_at, places_at, publication_at, sent as sent_of, times_at, told, tuned as tuned_of};

use super::fields::{epsilon, flag, one_of, places, set, u32_at, u64_at};
use super::frames::kept_frame;
use crate::fault::ParseFault;
use std::alloc::Global;
use tk_base::{Cut, Mon, Places};
use tk_frames::KeptFrame;
use tk_journal::{KeptEpsilon, KeptPublication, Noted, Publication};

/// A monitor, and a frame that it was sent or that came from it.
#[tactic(auto, unfolding(crate::specs::Reading::link_at))]
fn link(alloc: Global, monitors: u32, bytes: &[u8]) -> Result<((Mon, KeptFrame), &[u8]), ParseFault>
    ensures { Gives (λ x. ((x.0.0.0, x.0.1), x.1.now)) result (link_at monitors bytes.now) }
{
    let (mon, rest) = one_of(monitors, bytes)?;
    let (frame, rest) = kept_frame(alloc, rest)?;
    Ok(((Mon(mon), frame), rest))
}

#[tactic(auto, unfolding(crate::specs::Reading::bounds_at))]
fn bounds(bytes: &[u8]) -> Result<((u32, i128), &[u8]), ParseFault>
    ensures { Gives (λ x. (x.0, x.1.now)) result (bounds_at bytes.now) }
{
    let (k, rest) = u32_at(bytes)?;
    let (epsilon, rest) = epsilon(rest)?;
    Ok(((k, epsilon), rest))
}

fn places_of_each(
    alloc: Global,
    monitors: u32,
    bytes: &[u8],
) -> Result<(Vec<Places>, &[u8]), ParseFault>
    ensures { Gives (λ x. (x.0.items, x.1.now)) result (times_at places_at monitors bytes.now) }
{
    let mut list = Vec::new(alloc);
    let mut rest = bytes;
    for _ in 0..monitors {
        let (item, after) = places(alloc, rest)?;
        list.push(item)?;
        rest = after;
    }
    Ok((list, rest))
}

#[tactic(auto, unfolding(crate::specs::Reading::publication_at))]
fn publication(
    alloc: Global,
    monitors: u32,
    bytes: &[u8],
) -> Result<(Publication, &[u8]), ParseFault>
    ensures { Gives (λ x. (x.0, x.1.now)) result (publication_at monitors bytes.now) }
{
    let (number, rest) = u64_at(bytes)?;
    let (last, rest) = flag(rest)?;
    let ((k, epsilon), rest) = bounds(rest)?;
    let (members, rest) = set(alloc, rest)?;
    let (list, rest) = places_of_each(alloc, monitors, rest)?;
    let publication = Publication {
        number,
        last,
        k,
        epsilon,
        members,
        cut: Cut::new(list),
    };
    Ok((publication, rest))
}

fn published(alloc: Global, monitors: u32, bytes: &[u8]) -> Result<(Noted, &[u8]), ParseFault>
    ensures { Gives (λ x. (x.0, x.1.now)) result (as_at told (publication_at monitors) bytes.now) }
{
    let (publication, rest) = publication(alloc, monitors, bytes)?;
    match KeptPublication::new(alloc, publication) {
        Ok(publication) => Ok((Noted::Published(publication), rest)),
        Err(publication) => {
            drop(publication);
            Err(ParseFault::NoMemory)
        }
    }
}

fn tuned(alloc: Global, bytes: &[u8]) -> Result<(Noted, &[u8]), ParseFault>
    ensures { Gives (λ x. (x.0, x.1.now)) result (as_at tuned_of bounds_at bytes.now) }
{
    let ((k, epsilon), rest) = bounds(bytes)?;
    Ok((Noted::Tuned(k, KeptEpsilon::new(alloc, epsilon)?), rest))
}

fn got(alloc: Global, monitors: u32, bytes: &[u8]) -> Result<(Noted, &[u8]), ParseFault>
    ensures { Gives (λ x. (x.0, x.1.now)) result (as_at got_of (link_at monitors) bytes.now) }
{
    let ((mon, frame), rest) = link(alloc, monitors, bytes)?;
    Ok((Noted::Got(mon, frame), rest))
}

fn sent(alloc: Global, monitors: u32, bytes: &[u8]) -> Result<(Noted, &[u8]), ParseFault>
    ensures { Gives (λ x. (x.0, x.1.now)) result (as_at sent_of (link_at monitors) bytes.now) }
{
    let ((mon, frame), rest) = link(alloc, monitors, bytes)?;
    Ok((Noted::Sent(mon, frame), rest))
}

#[tactic(auto, unfolding(crate::specs::Reading::noted_at))]
fn noted(alloc: Global, monitors: u32, bytes: &[u8]) -> Result<(Noted, &[u8]), ParseFault>
    ensures { Gives (λ x. (x.0, x.1.now)) result (noted_at monitors bytes.now) }
{
    let [kind, rest @ ..] = bytes else {
        return Err(ParseFault::NotATrace);
    };
    match *kind {
        1 => got(alloc, monitors, rest),
        2 => sent(alloc, monitors, rest),
        3 => published(alloc, monitors, rest),
        4 => tuned(alloc, rest),
        _ => Err(ParseFault::NotATrace),
    }
}

fn entries_noted(
    alloc: Global,
    monitors: u32,
    count: u64,
    bytes: &[u8],
) -> Result<(Vec<Noted>, &[u8]), ParseFault>
    ensures { Gives (λ x. (x.0.items, x.1.now)) result (times_at (noted_at monitors) count bytes.now) }
{
    let mut list = Vec::new(alloc);
    let mut rest = bytes;
    for _ in 0..count {
        let (item, after) = noted(alloc, monitors, rest)?;
        list.push(item)?;
        rest = after;
    }
    Ok((list, rest))
}

/// The journal, and what follows it.
#[tactic(auto, unfolding(crate::specs::Reading::journal_at))]
pub fn journal(
    alloc: Global,
    monitors: u32,
    bytes: &[u8],
) -> Result<(Vec<Noted>, &[u8]), ParseFault>
    ensures { Gives (λ x. (x.0.items, x.1.now)) result (journal_at monitors bytes.now) }
{
    let (count, rest) = u64_at(bytes)?;
    entries_noted(alloc, monitors, count, rest)
}
