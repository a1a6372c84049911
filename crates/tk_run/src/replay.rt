//! The commands `replay` and `window`: the run of an input, and its text.

ghost use Rattle.std.specs.Prelude.{◌≡◌, IfSome, OnErr, OnOk, length};
ghost use Rattle.tk_input.specs.Sink.{Grows, GrowsByFront};
ghost use Rattle.tk_ledger.specs.Printing.{print_faults};
ghost use Rattle.tk_load.specs.Reads.{AreKept, FailsAsTold, reads_by};
ghost use Rattle.tk_load.specs.declared.status.Status.TheVariants.{Done};
ghost use Rattle.tk_run.specs.Ends.{EndsAsked, RunsAsked, text_with};
ghost use Rattle.tk_run.specs.Outcome.{IfDone, IsWithout};
ghost use Rattle.tk_load.specs.Surroundings.{faults_told, met_by};
ghost use Rattle.tk_story.specs.Headline.{IsSound};
ghost use Rattle.tk_words.specs.Asked.{AreOfMonitors, IsCarriage, asked_replay};
ghost use Rattle.tk_words.specs.Words.Asked.{Replays};

use crate::outcome::Outcome;
use crate::playing::{Played, story_of};
use std::alloc::Global;
use std::marker::Sync;
use std::thread::Threads;
use tk_input::{Catalog, Files, Sink};
use tk_ledger::{PrintFault, print, print_ticked};
use tk_load::{Status, load};
use tk_story::Story;
use tk_window::TickEnds;
use tk_words::Replay;

/// Writes the text of a story, with its ticks where a window goes over the logs.
fn print_with<O: Sink>(
    alloc: Global,
    story: &Story,
    names: &Catalog,
    ends: &Option<TickEnds>,
    out: &mut O,
) -> Result<(), PrintFault>
    requires { length names.now ≡ story.now.story.settings.objects }
    ensures ok { OnOk result (Grows (O.written out.old) (O.written out.new) (text_with ends.now names.now story.now.story)) }
    ensures err { OnErr result
        (GrowsByFront (O.written out.old) (O.written out.new) (text_with ends.now names.now story.now.story)) }
    ensures counted { O.fault_count out.new ≡ print_faults result (O.fault_count out.old) }
{
    match ends {
        None => print(alloc, story, names, out),
        Some(ends) => print_ticked(alloc, story, names, ends, out),
    }
}

/// Serves `replay`, and `window`, whose logs are expanded when they are read. Nothing is written before the input stands
/// and its story is over.
pub fn replay<R: Threads + Sync, F: Files, O: Sink>(
    rt: &R,
    alloc: Global,
    words: &Replay<'_>,
    files: &mut F,
    out: &mut O,
) -> Outcome
    requires monitors { AreOfMonitors words.now.sources.logs.items }
    requires carriage { IsCarriage words.now.carriage }
    ensures ran { IfDone result (RunsAsked (Replays (asked_replay words.now))
        (met_by F.Files O.Sink files.old files.new out.old out.new)) }
    ensures sound { IfSome result.story (λ s. IsSound s.story) }
    ensures ends { EndsAsked (Replays (asked_replay words.now))
        (met_by F.Files O.Sink files.old files.new out.old out.new) result.status }
    ensures without { (result.status ≡ Done → ⊥) → IsWithout result }
    ensures kept { AreKept F.Files files.old files.new }
    ensures failed { FailsAsTold (reads_by F.Files files.old files.new) result.status }
    ensures counted { O.fault_count out.new ≡ faults_told result.status (O.fault_count out.old) }
{
    let input = match load(rt, alloc, &words.sources, files) {
        Ok(input) => input,
        Err(status) => return Outcome::ended(alloc, status),
    };
    let Ok(Played { story, names, ends }) = story_of(alloc, input, words.carriage) else {
        return Outcome::ended(alloc, Status::NoMemory);
    };
    match print_with(alloc, &story, &names, &ends, out) {
        Ok(()) => Outcome::done(alloc, story),
        Err(PrintFault::WriteFailed) => Outcome::without(alloc, story, Status::WriteFault),
        Err(PrintFault::NoMemory) => Outcome::without(alloc, story, Status::NoMemory),
    }
}
