//! The trace of a run, in place of its text.

ghost use Rattle.std.specs.Prelude.{◌≡◌, IfSome};
ghost use Rattle.tk_load.specs.Reads.{AreKept, FailsAsTold, reads_by};
ghost use Rattle.tk_load.specs.declared.status.Status.TheVariants.{Done};
ghost use Rattle.tk_run.specs.Ends.{EndsAsked, RunsAsked};
ghost use Rattle.tk_story.specs.Headline.{IsSound};
ghost use Rattle.tk_run.specs.Outcome.{IfDone, IsWithout};
ghost use Rattle.tk_load.specs.Surroundings.{faults_told, met_by};
ghost use Rattle.tk_words.specs.Asked.{AreOfMonitors, IsCarriage, asked_replay};
ghost use Rattle.tk_words.specs.Words.Asked.{Traces};

use crate::outcome::Outcome;
use crate::playing::{Played, story_of};
use std::alloc::Global;
use std::marker::Sync;
use std::thread::Threads;
use tk_input::{Files, Sink};
use tk_ledger::PrintFault;
use tk_load::{Status, load};
use tk_trace::write;
use tk_words::Replay;

/// Serves `trace`. Nothing is written before the input stands and its story is over.
pub fn serve_trace<R: Threads + Sync, F: Files, O: Sink>(
    rt: &R,
    alloc: Global,
    words: &Replay<'_>,
    files: &mut F,
    out: &mut O,
) -> Outcome
    requires monitors { AreOfMonitors words.now.sources.logs.items }
    requires carriage { IsCarriage words.now.carriage }
    ensures ran { IfDone result (RunsAsked (Traces (asked_replay words.now))
        (met_by F.Files O.Sink files.old files.new out.old out.new)) }
    ensures sound { IfSome result.story (λ s. IsSound s.story) }
    ensures ends { EndsAsked (Traces (asked_replay words.now))
        (met_by F.Files O.Sink files.old files.new out.old out.new) result.status }
    ensures without { (result.status ≡ Done → ⊥) → IsWithout result }
    ensures kept { AreKept F.Files files.old files.new }
    ensures failed { FailsAsTold (reads_by F.Files files.old files.new) result.status }
    ensures counted { O.fault_count out.new ≡ faults_told result.status (O.fault_count out.old) }
{
    let input = match load(rt, alloc, &words.sources, files) {
        Ok(input) => input,
        Err(status) => return Outcome::ended(alloc, status),
    };
    let Ok(Played { story, names, .. }) = story_of(alloc, input, words.carriage) else {
        return Outcome::ended(alloc, Status::NoMemory);
    };
    match write(alloc, &story, &names, out) {
        Ok(()) => Outcome::done(alloc, story),
        Err(PrintFault::WriteFailed) => Outcome::without(alloc, story, Status::WriteFault),
        Err(PrintFault::NoMemory) => Outcome::without(alloc, story, Status::NoMemory),
    }
}
