//! The text of a story and its shorter forms, written line by line: sets, ticks, ledger and summary.

ghost use Rattle.std.specs.Prelude.{◌≡◌, ◌++◌, [], length, option_map, unwrap_or, IfOk, OnOk, OnErr, IsErrOf};
ghost use Rattle.std.specs.List.{All};
ghost use Rattle.std.specs.Option.{option_copied};
ghost use Rattle.tk_base.specs.History.{last_of};
ghost use Rattle.tk_input.specs.Files.{HasRisen};
ghost use Rattle.tk_input.specs.Sink.{Grows, GrowsByFront};
ghost use Rattle.tk_ledger.specs.Printing.{AreNamed, print_faults};
ghost use Rattle.tk_ledger.specs.Text.{is_tuned, ledger_text, line_at, line_with, lines_of, monitors_text, publications_text, sets_text, summary_of, text_by, text_of, ticked_at, ticked_text_of, ticks_text, totals_text};
ghost use Rattle.tk_window.specs.TickEnds.{ticks_at};
ghost use Rattle.tk_ledger.specs.declared.printing.PrintFault.TheVariants.{NoMemory as OutOfMemory, WriteFailed as NotWritten};

use crate::counts::PerMonitor;
use crate::ledger::Ledger;
use crate::text::{bytes_line, frames_line, monitor_line, publications_line, rounds_line};
use std::alloc::{AllocError, Global};
use std::error::Error;
use std::fmt;
use tk_base::{Cut, NoMemory};
use tk_input::{Catalog, PutFailed, Sink};
use tk_journal::{Noted, push_cut};
use tk_story::Story;
use tk_window::TickEnds;

/// Why a text was not written to its end. What was written is a front of it.
#[derive(Clone, Copy, Debug, PartialEq, Eq)]
pub enum PrintFault {
    WriteFailed,
    NoMemory,
}

impl fmt::Display for PrintFault {
    fn fmt<W: fmt::Write>(&self, f: &mut fmt::Formatter<W>) -> fmt::Result {
        f.write_str(match self {
            PrintFault::WriteFailed => "the output cannot be written",
            PrintFault::NoMemory => "out of memory",
        })
    }
}

impl Error for PrintFault {}

impl From<NoMemory> for PrintFault {
    ghost from_gives = { λ _ e. e ≡ OutOfMemory };

    fn from(_error: NoMemory) -> PrintFault {
        PrintFault::NoMemory
    }
}

impl From<AllocError> for PrintFault {
    ghost from_gives = { λ _ e. e ≡ OutOfMemory };

    fn from(_error: AllocError) -> PrintFault {
        PrintFault::NoMemory
    }
}

impl From<PutFailed> for PrintFault {
    ghost from_gives = { λ _ e. e ≡ NotWritten };

    fn from(_error: PutFailed) -> PrintFault {
        PrintFault::WriteFailed
    }
}

/// Puts a line, and drops it by name: each place that drops one by itself is dear to prove.
pub fn put_line<O: Sink>(line: Vec<u8>, out: &mut O) -> Result<(), PrintFault>
    ensures ok { OnOk result (Grows (O.written out.old) (O.written out.new) line.items) }
    ensures err { OnErr result (GrowsByFront (O.written out.old) (O.written out.new) line.items) }
    ensures failed { IsErrOf result PrintFault.WriteFailed → HasRisen (O.fault_count out.old) (O.fault_count out.new) }
    ensures counted { O.fault_count out.new ≡ print_faults result (O.fault_count out.old) }
{
    let put = out.put(line.as_slice());
    drop(line);
    match put {
        Ok(()) => Ok(()),
        Err(PutFailed) => Err(PrintFault::WriteFailed),
    }
}

/// Writes the three lines over all monitors.
fn print_totals<O: Sink>(alloc: Global, ledger: &Ledger, out: &mut O) -> Result<(), PrintFault>
    ensures ok { OnOk result (Grows (O.written out.old) (O.written out.new) (totals_text ledger.now)) }
    ensures err { OnErr result (GrowsByFront (O.written out.old) (O.written out.new) (totals_text ledger.now)) }
    ensures failed { IsErrOf result PrintFault.WriteFailed → HasRisen (O.fault_count out.old) (O.fault_count out.new) }
    ensures counted { O.fault_count out.new ≡ print_faults result (O.fault_count out.old) }
{
    put_line(frames_line(alloc, ledger)?, out)?;
    put_line(rounds_line(alloc, ledger)?, out)?;
    put_line(bytes_line(alloc, ledger)?, out)?;
    Ok(())
}

/// Writes a line for each monitor.
fn print_monitors<O: Sink>(alloc: Global, per: &PerMonitor, out: &mut O) -> Result<(), PrintFault>
    ensures ok { OnOk result (Grows (O.written out.old) (O.written out.new) (monitors_text per.now)) }
    ensures err { OnErr result (GrowsByFront (O.written out.old) (O.written out.new) (monitors_text per.now)) }
    ensures failed { IsErrOf result PrintFault.WriteFailed → HasRisen (O.fault_count out.old) (O.fault_count out.new) }
    ensures counted { O.fault_count out.new ≡ print_faults result (O.fault_count out.old) }
{
    for i in 0..per.len() {
        put_line(monitor_line(alloc, i as u64 + 1, per.at(i))?, out)?;
    }
    Ok(())
}

/// Writes the ledger's lines, each by one put.
pub fn print_ledger<O: Sink>(alloc: Global, ledger: &Ledger, out: &mut O) -> Result<(), PrintFault>
    ensures ok { OnOk result (Grows (O.written out.old) (O.written out.new) (ledger_text ledger.now)) }
    ensures err { OnErr result (GrowsByFront (O.written out.old) (O.written out.new) (ledger_text ledger.now)) }
    ensures failed { IsErrOf result PrintFault.WriteFailed → HasRisen (O.fault_count out.old) (O.fault_count out.new) }
    ensures counted { O.fault_count out.new ≡ print_faults result (O.fault_count out.old) }
{
    print_totals(alloc, ledger, out)?;
    print_monitors(alloc, &ledger.per, out)
}

fn is_retune(entry: &Noted) -> bool
    ensures { result ≡ is_tuned entry.now }
{
    matches!(entry, Noted::Tuned(..))
}

/// The line of an entry that is a publication.
fn line_in(
    alloc: Global,
    entry: &Noted,
    names: &Catalog,
    tuned: bool,
) -> Result<Option<Vec<u8>>, NoMemory>
    requires { AreNamed (length names.now) entry.now }
    ensures { IfOk result (λ line. option_map (λ l. l.items) line ≡ line_at names.now tuned entry.now) }
{
    match entry {
        Noted::Published(publication) => Ok(Some(publication.get().line(alloc, names, tuned)?)),
        Noted::Got(..) | Noted::Sent(..) | Noted::Tuned(..) => Ok(None),
    }
}

/// Writes the ticks that end at the places of a cut, where one does at each.
fn push_ticks(alloc: Global, line: &mut Vec<u8>, ends: &TickEnds, cut: &Cut) -> Result<(), NoMemory>
    ensures { OnOk result (line.new.items ≡ line.old.items ++ ticks_text (ticks_at ends.now cut.now)) }
{
    let Some(ticks) = ends.at(alloc, cut)? else {
        return Ok(());
    };
    line.extend_from_slice(b"ticks")?;
    push_cut(line, &ticks)?;
    line.extend_from_slice(b"\n")?;
    Ok(())
}

/// The line of an entry that is a publication, and that of its ticks.
fn ticked_line(
    alloc: Global,
    entry: &Noted,
    names: &Catalog,
    tuned: bool,
    ends: &TickEnds,
) -> Result<Option<Vec<u8>>, NoMemory>
    requires { AreNamed (length names.now) entry.now }
    ensures { IfOk result (λ line. option_map (λ l. l.items) line ≡ ticked_at ends.now names.now tuned entry.now) }
{
    match entry {
        Noted::Published(publication) => {
            let mut line = publication.get().line(alloc, names, tuned)?;
            push_ticks(alloc, &mut line, ends, &publication.get().cut)?;
            Ok(Some(line))
        }
        Noted::Got(..) | Noted::Sent(..) | Noted::Tuned(..) => Ok(None),
    }
}

/// The same with ticks or without.
fn line_by(
    alloc: Global,
    entry: &Noted,
    names: &Catalog,
    tuned: bool,
    ticks: Option<&TickEnds>,
) -> Result<Option<Vec<u8>>, NoMemory>
    requires { AreNamed (length names.now) entry.now }
    ensures { IfOk result (λ line. option_map (λ l. l.items) line
        ≡ line_with (option_copied ticks.entry) names.now tuned entry.now) }
{
    match ticks {
        None => line_in(alloc, entry, names, tuned),
        Some(ends) => ticked_line(alloc, entry, names, tuned, ends),
    }
}

/// Writes the lines of the publications.
fn print_publications<O: Sink>(
    alloc: Global,
    journal: &[Noted],
    names: &Catalog,
    ticks: Option<&TickEnds>,
    out: &mut O,
) -> Result<(), PrintFault>
    requires { All (AreNamed (length names.now)) journal.now }
    ensures ok { OnOk result (Grows (O.written out.old) (O.written out.new)
        (text_by (option_copied ticks.entry) names.now journal.now)) }
    ensures err { OnErr result (GrowsByFront (O.written out.old) (O.written out.new)
        (text_by (option_copied ticks.entry) names.now journal.now)) }
    ensures failed { IsErrOf result PrintFault.WriteFailed → HasRisen (O.fault_count out.old) (O.fault_count out.new) }
    ensures counted { O.fault_count out.new ≡ print_faults result (O.fault_count out.old) }
{
    let mut tuned = false;
    for entry in journal {
        if let Some(line) = line_by(alloc, entry, names, tuned, ticks)? {
            put_line(line, out)?;
        }
        tuned |= is_retune(entry);
    }
    Ok(())
}

/// How many publications there are, and the line of the last of them, empty where there is none.
fn last_line(alloc: Global, journal: &[Noted], names: &Catalog) -> Result<(u64, Vec<u8>), NoMemory>
    requires { All (AreNamed (length names.now)) journal.now }
    ensures count { IfOk result (λ r. r.0 ≡ length (lines_of names.now journal.now)) }
    ensures line { IfOk result (λ r. r.1.items ≡ unwrap_or (last_of (lines_of names.now journal.now)) []) }
{
    let mut count = 0;
    let mut line = Vec::new(alloc);
    let mut tuned = false;
    for entry in journal {
        if let Some(next) = line_in(alloc, entry, names, tuned)? {
            line = next;
            count += 1;
        }
        tuned |= is_retune(entry);
    }
    Ok((count, line))
}

/// Writes how many publications there are, and the line of the last of them.
fn print_last<O: Sink>(alloc: Global, last: &(u64, Vec<u8>), out: &mut O) -> Result<(), PrintFault>
    ensures ok { OnOk result (Grows (O.written out.old) (O.written out.new) (publications_text last.now.0 ++ last.now.1.items)) }
    ensures err { OnErr result (GrowsByFront (O.written out.old) (O.written out.new) (publications_text last.now.0 ++ last.now.1.items)) }
    ensures failed { IsErrOf result PrintFault.WriteFailed → HasRisen (O.fault_count out.old) (O.fault_count out.new) }
    ensures counted { O.fault_count out.new ≡ print_faults result (O.fault_count out.old) }
{
    put_line(publications_line(alloc, last.0)?, out)?;
    out.put(&last.1)?;
    Ok(())
}

/// Writes the lines of the publications of a story, each by one put. From the first entry `Tuned` on, a publication's
/// line says k and epsilon.
pub fn print_sets<O: Sink>(
    alloc: Global,
    story: &Story,
    names: &Catalog,
    out: &mut O,
) -> Result<(), PrintFault>
    requires names { length names.now ≡ story.now.story.settings.objects }
    ensures ok { OnOk result (Grows (O.written out.old) (O.written out.new) (sets_text names.now story.now.story)) }
    ensures err { OnErr result (GrowsByFront (O.written out.old) (O.written out.new) (sets_text names.now story.now.story)) }
    ensures failed { IsErrOf result PrintFault.WriteFailed → HasRisen (O.fault_count out.old) (O.fault_count out.new) }
    ensures counted { O.fault_count out.new ≡ print_faults result (O.fault_count out.old) }
{
    print_publications(alloc, story.journal(), names, None, out)
}

/// Writes the text of a story: the lines of its publications, then those of its ledger, each by one put.
pub fn print<O: Sink>(
    alloc: Global,
    story: &Story,
    names: &Catalog,
    out: &mut O,
) -> Result<(), PrintFault>
    requires names { length names.now ≡ story.now.story.settings.objects }
    ensures ok { OnOk result (Grows (O.written out.old) (O.written out.new) (text_of names.now story.now.story)) }
    ensures err { OnErr result (GrowsByFront (O.written out.old) (O.written out.new) (text_of names.now story.now.story)) }
    ensures failed { IsErrOf result PrintFault.WriteFailed → HasRisen (O.fault_count out.old) (O.fault_count out.new) }
    ensures counted { O.fault_count out.new ≡ print_faults result (O.fault_count out.old) }
{
    print_sets(alloc, story, names, out)?;
    print_ledger(alloc, &Ledger::of(alloc, story)?, out)
}

/// The same of a run over windows: behind the line of a publication whose places are all ends of ticks stands one of
/// these ticks.
pub fn print_ticked<O: Sink>(
    alloc: Global,
    story: &Story,
    names: &Catalog,
    ends: &TickEnds,
    out: &mut O,
) -> Result<(), PrintFault>
    requires names { length names.now ≡ story.now.story.settings.objects }
    ensures ok { OnOk result (Grows (O.written out.old) (O.written out.new) (ticked_text_of ends.now names.now story.now.story)) }
    ensures err { OnErr result (GrowsByFront (O.written out.old) (O.written out.new)
        (ticked_text_of ends.now names.now story.now.story)) }
    ensures failed { IsErrOf result PrintFault.WriteFailed → HasRisen (O.fault_count out.old) (O.fault_count out.new) }
    ensures counted { O.fault_count out.new ≡ print_faults result (O.fault_count out.old) }
{
    print_publications(alloc, story.journal(), names, Some(ends), out)?;
    print_ledger(alloc, &Ledger::of(alloc, story)?, out)
}

/// Writes the summary of a story: how many publications there are, the line of the last, and the ledger's lines
/// over all monitors, each by one put.
pub fn print_summary<O: Sink>(
    alloc: Global,
    story: &Story,
    names: &Catalog,
    out: &mut O,
) -> Result<(), PrintFault>
    requires names { length names.now ≡ story.now.story.settings.objects }
    ensures ok { OnOk result (Grows (O.written out.old) (O.written out.new) (summary_of names.now story.now.story)) }
    ensures err { OnErr result (GrowsByFront (O.written out.old) (O.written out.new) (summary_of names.now story.now.story)) }
    ensures failed { IsErrOf result PrintFault.WriteFailed → HasRisen (O.fault_count out.old) (O.fault_count out.new) }
    ensures counted { O.fault_count out.new ≡ print_faults result (O.fault_count out.old) }
{
    print_last(alloc, &last_line(alloc, story.journal(), names)?, out)?;
    print_totals(alloc, &Ledger::of(alloc, story)?, out)
}
