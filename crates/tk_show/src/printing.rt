//! The text of a run, written line by line.

ghost use Rattle.std.specs.Prelude.{◌≡◌, ◌++◌, IfOk, OnOk, OnErr, IsErrOf, true};
ghost use Rattle.std.specs.List.{All};
ghost use Rattle.tk_input.specs.Files.{HasRisen};
ghost use Rattle.tk_input.specs.Sink.{Grows, GrowsByFront};
ghost use Rattle.tk_ledger.specs.Printing.{print_faults};
ghost use Rattle.tk_show.specs.Turned.{batch_length};
ghost use Rattle.tk_show.specs.Text.{asked_text, catalog_text, lines_from, numbers_text, opening_text, settings_text, shown_text, sizes_text};
ghost use Rattle.tk_story.specs.Story.{IsStory};
ghost use Rattle.tk_world.specs.Events.{is_of};
ghost use Rattle.tk_world.specs.Runs.{RunsBy};

use crate::noted::push_batch;
use crate::telling::Telling;
use crate::words::{push_name, push_named};
use std::alloc::{AllocError, Global};
use tk_base::{NoMemory, Obj, Settings};
use tk_input::{Catalog, Event, Sink};
use tk_journal::Noted;
use tk_ledger::{PrintFault, put_line};
use tk_story::Story;

/// The names of the catalogue.
fn push_catalog(line: &mut Vec<u8>, names: &Catalog) -> Result<(), AllocError>
    ensures { OnOk result (line.new.items ≡ line.old.items ++ catalog_text names.now) }
{
    for i in 0..names.len() {
        push_name(line, Obj(i as u32 + 1), names)?;
    }
    Ok(())
}

/// How many members there are, and within which epsilon.
fn push_asked(line: &mut Vec<u8>, settings: &Settings) -> Result<(), AllocError>
    ensures { OnOk result (line.new.items ≡ line.old.items ++ asked_text settings.now) }
{
    push_named(line, b"k ", settings.k())?;
    push_named(line, b" epsilon ", settings.epsilon())
}

/// The own weight, and how many monitors there are.
fn push_sizes(line: &mut Vec<u8>, settings: &Settings) -> Result<(), AllocError>
    ensures { OnOk result (line.new.items ≡ line.old.items ++ sizes_text settings.now) }
{
    push_named(line, b" own weight ", settings.own_weight())?;
    push_named(line, b" monitors ", settings.monitors())
}

/// The numbers of the settings.
fn push_numbers(line: &mut Vec<u8>, settings: &Settings) -> Result<(), AllocError>
    ensures { OnOk result (line.new.items ≡ line.old.items ++ numbers_text settings.now) }
{
    push_asked(line, settings)?;
    push_sizes(line, settings)
}

/// The line of the settings.
fn settings_line(alloc: Global, settings: &Settings, names: &Catalog) -> Result<Vec<u8>, AllocError>
    ensures { IfOk result (λ line. line.items ≡ settings_text names.now settings.now) }
{
    let mut line = Vec::new(alloc);
    push_numbers(&mut line, settings)?;
    line.extend_from_slice(b" objects")?;
    push_catalog(&mut line, names)?;
    line.push(b'\n')?;
    Ok(line)
}

/// The line of what opens a journal, and where that ends.
fn opening_line(
    alloc: Global,
    journal: &[Noted],
    names: &Catalog,
) -> Result<(Vec<u8>, usize), AllocError>
    ensures line { IfOk result (λ r. r.0.items ≡ opening_text names.now journal.now) }
    ensures end { IfOk result (λ r. r.1 ≡ batch_length journal.now) }
{
    let mut line = Vec::from_slice(alloc, b"start")?;
    let end = push_batch(&mut line, journal, 0, names)?;
    line.push(b'\n')?;
    Ok((line, end))
}

/// Writes the lines of the events, where the story is told so far.
fn print_events<O: Sink>(
    alloc: Global,
    story: &Story,
    events: &[Event],
    telling: &mut Telling,
    names: &Catalog,
    out: &mut O,
) -> Result<(), PrintFault>
    requires story { IsStory story.now.story }
    requires events { All (λ e. is_of story.now.story e ≡ true) events.now }
    ensures ok { OnOk result (Grows (O.written out.old) (O.written out.new)
        (lines_from names.now story.now.story telling.old events.now)) }
    ensures err { OnErr result (GrowsByFront (O.written out.old) (O.written out.new)
        (lines_from names.now story.now.story telling.old events.now)) }
    ensures failed { IsErrOf result PrintFault.WriteFailed → HasRisen (O.fault_count out.old) (O.fault_count out.new) }
    ensures counted { O.fault_count out.new ≡ print_faults result (O.fault_count out.old) }
{
    for event in events {
        put_line(telling.line(alloc, story, event, names)?, out)?;
    }
    Ok(())
}

/// Writes a run as text, each line by one put: its settings, what opened it, and its events in order. Costs the
/// story and its logs.
pub fn show<O: Sink>(
    alloc: Global,
    story: &Story,
    names: &Catalog,
    out: &mut O,
) -> Result<(), PrintFault>
    requires { RunsBy story.now.story story.now.events }
    ensures ok { OnOk result (Grows (O.written out.old) (O.written out.new) (shown_text names.now story.now)) }
    ensures err { OnErr result (GrowsByFront (O.written out.old) (O.written out.new) (shown_text names.now story.now)) }
    ensures failed { IsErrOf result PrintFault.WriteFailed → HasRisen (O.fault_count out.old) (O.fault_count out.new) }
    ensures counted { O.fault_count out.new ≡ print_faults result (O.fault_count out.old) }
{
    put_line(settings_line(alloc, story.settings(), names)?, out)?;
    let (line, entries) = opening_line(alloc, story.journal(), names)?;
    put_line(line, out)?;
    let mut telling = Telling::from(alloc, story.from(), entries)?;
    print_events(alloc, story, story.events(), &mut telling, names, out)
}
