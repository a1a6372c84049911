//! A trace, written from a story.

ghost use Rattle.std.specs.Prelude.{◌≡◌, Ok, length, IfOk, IsErrOf, OnErr, OnOk};
ghost use Rattle.tk_input.specs.Catalog.{catalog_from};
ghost use Rattle.tk_input.specs.Files.{HasRisen};
ghost use Rattle.tk_input.specs.Sink.{Grows, GrowsByFront};
ghost use Rattle.tk_ledger.specs.Printing.{print_faults};
ghost use Rattle.tk_trace.specs.Recorded.{recorded_of};
ghost use Rattle.tk_trace.specs.Spelling.{IsRecorded, trace_of};

mod fields;
mod head;
mod journal;
mod logs;
mod trails;

use head::{put_names, put_setup};
use journal::put_journal;
use logs::put_logs;
use std::alloc::Global;
use tk_base::NoMemory;
use tk_input::{Catalog, Sink};
use tk_ledger::PrintFault;
use tk_story::Story;
use trails::put_trails;

const MARK: [u8; 8] = *b"TOPKTRC1";

#[tactic(auto, unfolding(crate::specs::Spelling::trace))]
fn text_of(alloc: Global, story: &Story, names: &Catalog) -> Result<Vec<u8>, NoMemory>
    requires named { length names.now ≡ story.now.story.settings.objects }
    requires names { catalog_from names.now ≡ Ok names.now }
    ensures bytes { IfOk result (λ text. text.items ≡ trace_of names.now story.now.story) }
    ensures recorded { OnOk result (IsRecorded (recorded_of names.now story.now.story)) }
{
    let mut text = Vec::new(alloc);
    text.extend_from_slice(&MARK)?;
    let settings = story.settings();
    put_setup(&mut text, settings)?;
    put_names(&mut text, names)?;
    put_logs(alloc, &mut text, story.logs())?;
    put_journal(&mut text, settings.monitors(), story.journal())?;
    put_trails(&mut text, story)?;
    Ok(text)
}

/// Writes the trace of a story, by one put. A trace says nothing of starting places and of events, so only one of a story
/// from places 0 tells that story.
pub fn write<O: Sink>(
    alloc: Global,
    story: &Story,
    names: &Catalog,
    out: &mut O,
) -> Result<(), PrintFault>
    requires named { length names.now ≡ story.now.story.settings.objects }
    requires names { catalog_from names.now ≡ Ok names.now }
    ensures ok { OnOk result (Grows (O.written out.old) (O.written out.new) (trace_of names.now story.now.story)) }
    ensures err { OnErr result (GrowsByFront (O.written out.old) (O.written out.new) (trace_of names.now story.now.story)) }
    ensures failed { IsErrOf result PrintFault.WriteFailed → HasRisen (O.fault_count out.old) (O.fault_count out.new) }
    ensures counted { O.fault_count out.new ≡ print_faults result (O.fault_count out.old) }
    ensures unput { IsErrOf result PrintFault.NoMemory → O.written out.new ≡ O.written out.old }
    // All of it is within the rules, so what was written is a trace of this run, and of no other.
    ensures recorded { OnOk result (IsRecorded (recorded_of names.now story.now.story)) }
{
    let text = text_of(alloc, story, names)?;
    out.put(&text)?;
    Ok(())
}
