//! The frames of a journal, counted by monitor and kind, and their bytes.

ghost use Rattle.std.specs.Prelude.{◌≡◌, ℕ, ◌+◌, ◌-◌, ◌<◌, ◌^◌, length, map, slice_index_or, IfOk, sum_by};
ghost use Rattle.std.specs.List.{range_with_len};
ghost use Rattle.tk_ledger.specs.Ledger.{bytes_in as bytes_of, counts_of, frames_at, passed_at};
ghost use Rattle.tk_ledger.specs.Counting.{CountEach, HasRoom, count_of, none, passed_over, with_one};

use crate::counts::{Counts, PerMonitor};
use std::alloc::Global;
use tk_base::{Mon, NoMemory};
use tk_frames::{Frame, Kind};
use tk_journal::Noted;

fn count_kind(counts: &mut Counts, kind: Kind)
    requires { count_of kind counts.old < 2 ^ 64 - 1 }
    ensures { counts.new ≡ with_one counts.old kind }
{
    match kind {
        Kind::Assign => counts.assign += 1,
        Kind::Report => counts.report += 1,
        Kind::Collect => counts.collect += 1,
        Kind::Values => counts.values += 1,
        Kind::Settled => counts.settled += 1,
        Kind::Stop => counts.stop += 1,
        Kind::Hello => {}
    }
}

/// Counts a frame for its monitor, where there is one.
fn count_frame(per: &mut [Counts], mon: Mon, frame: &Frame)
    requires { (i : ℕ) → HasRoom (slice_index_or per.old i none) }
    ensures length { length per.new ≡ length per.old }
    ensures each { CountEach (passed_over mon frame.now) per.old per.new }
{
    let place = mon.0 as usize;
    if 0 < place && place <= per.len() {
        count_kind(&mut per[place - 1], frame.kind());
    }
}

fn count_entry(per: &mut [Counts], entry: &Noted)
    requires { (i : ℕ) → HasRoom (slice_index_or per.old i none) }
    ensures length { length per.new ≡ length per.old }
    ensures each { CountEach (λ mon. passed_at mon entry.now) per.old per.new }
{
    match entry {
        Noted::Got(mon, frame) => count_frame(per, *mon, frame.get()),
        Noted::Sent(mon, frame) => count_frame(per, *mon, frame.get()),
        Noted::Published(..) | Noted::Tuned(..) => {}
    }
}

/// How many bytes the frame of an entry takes in version 1, if it passes one.
fn bytes_in(entry: &Noted) -> u128
    ensures { result ≡ bytes_of entry.now }
{
    match entry {
        Noted::Got(_, frame) => frame.get().size(),
        Noted::Sent(_, frame) => frame.get().size(),
        Noted::Published(..) | Noted::Tuned(..) => 0,
    }
}

/// The frames of a journal by monitor, and the bytes of all, in one pass. No memory holds a journal of more bytes than
/// a u128 counts.
pub fn count_frames(
    alloc: Global,
    monitors: usize,
    journal: &[Noted],
) -> Result<(PerMonitor, u128), NoMemory>
    ensures per { IfOk result (λ r. r.0 ≡ map (λ mon. counts_of (frames_at mon journal.now)) (range_with_len 1 monitors)) }
    ensures bytes { IfOk result (λ r. r.1 ≡ sum_by bytes_of journal.now) }
{
    let mut per = vec![in alloc; Counts::default(); monitors]?;
    let mut bytes: u128 = 0;
    for entry in journal {
        count_entry(&mut per, entry);
        let Some(sum) = bytes.checked_add(bytes_in(entry)) else {
            return Err(NoMemory);
        };
        bytes = sum;
    }
    Ok((PerMonitor::new(per), bytes))
}
