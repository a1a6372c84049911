//! The journal.

ghost use Rattle.std.specs.Prelude.{◌≡◌, ◌++◌, ◌<◌, ◌^◌, length, All, OnOk};
ghost use Rattle.std.specs.List.{flat_map};
ghost use Rattle.tk_frames.specs.Spelling.{ArePlaces, places as places_of};
ghost use Rattle.tk_trace.specs.Spelling.{IsNoted, IsPublication, journal as journal_of, noted as noted_of, publication as publication_of};
ghost use Rattle.tk_trace.specs.Writing.{CanBeNoted, CanBePublished};

use super::fields::{bounds, flag, frame, number_u32, number_u64, places, set};
use tk_base::{Cut, NoMemory};
use tk_journal::{Noted, Publication};

fn cut(out: &mut Vec<u8>, cut: &Cut) -> Result<(), NoMemory>
    requires { All (λ places. length places < 2 ^ 32) cut.now }
    ensures bytes { OnOk result (out.new.items ≡ out.old.items ++ flat_map (places_of 1) cut.now) }
    ensures within { OnOk result (All ArePlaces cut.now) }
{
    for i in 0..cut.len() {
        places(out, cut.at(i))?;
    }
    Ok(())
}

fn publication(out: &mut Vec<u8>, p: &Publication) -> Result<(), NoMemory>
    requires { CanBePublished (length p.now.cut) p.now }
    ensures bytes { OnOk result (out.new.items ≡ out.old.items ++ publication_of p.now) }
    ensures within { OnOk result (IsPublication (length p.now.cut) p.now) }
{
    number_u64(out, p.number)?;
    flag(out, p.last)?;
    bounds(out, p.k, p.epsilon)?;
    set(out, &p.members)?;
    cut(out, &p.cut)
}

fn noted(out: &mut Vec<u8>, monitors: u32, entry: &Noted) -> Result<(), NoMemory>
    requires { CanBeNoted monitors entry.now }
    ensures bytes { OnOk result (out.new.items ≡ out.old.items ++ noted_of entry.now) }
    ensures within { OnOk result (IsNoted monitors entry.now) }
{
    match entry {
        Noted::Got(mon, kept) => {
            out.push(1)?;
            number_u32(out, mon.0)?;
            frame(out, kept.get())
        }
        Noted::Sent(mon, kept) => {
            out.push(2)?;
            number_u32(out, mon.0)?;
            frame(out, kept.get())
        }
        Noted::Published(kept) => {
            out.push(3)?;
            publication(out, kept.get())
        }
        Noted::Tuned(k, epsilon) => {
            out.push(4)?;
            bounds(out, *k, epsilon.get())
        }
    }
}

fn entries(out: &mut Vec<u8>, monitors: u32, entries: &[Noted]) -> Result<(), NoMemory>
    requires { All (CanBeNoted monitors) entries.now }
    ensures bytes { OnOk result (out.new.items ≡ out.old.items ++ flat_map noted_of entries.now) }
    ensures within { OnOk result (All (IsNoted monitors) entries.now) }
{
    for entry in entries {
        noted(out, monitors, entry)?;
    }
    Ok(())
}

/// Appends the journal.
pub fn put_journal(out: &mut Vec<u8>, monitors: u32, journal: &[Noted]) -> Result<(), NoMemory>
    requires { All (CanBeNoted monitors) journal.now }
    ensures bytes { OnOk result (out.new.items ≡ out.old.items ++ journal_of journal.now) }
    ensures few { length journal.now < 2 ^ 64 }
    ensures within { OnOk result (All (IsNoted monitors) journal.now) }
{
    number_u64(out, journal.len() as u64)?;
    entries(out, monitors, journal)
}
