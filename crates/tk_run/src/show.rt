//! A trace that is shown as text.

ghost use Rattle.std.specs.Prelude.{◌≡◌, IfOk, IfSome};
ghost use Rattle.tk_load.specs.Reads.{AreKept, FailsAsTold, reads_by};
ghost use Rattle.tk_load.specs.declared.status.Status.TheVariants.{Done};
ghost use Rattle.tk_run.specs.Ends.{EndsAsked, IsShownBy, RunsAsked};
ghost use Rattle.tk_story.specs.Headline.{IsSound};
ghost use Rattle.tk_run.specs.Outcome.{IfDone, IsWithout};
ghost use Rattle.tk_load.specs.Surroundings.{faults_told, met_by};
ghost use Rattle.tk_words.specs.Words.Asked.{Shows};

use crate::outcome::Outcome;
use std::alloc::Global;
use tk_base::NoMemory;
use tk_commands::load_trace;
use tk_input::{Files, Sink};
use tk_ledger::PrintFault;
use tk_load::Status;
use tk_show::show;
use tk_story::a_finished_run_is_sound;
use tk_trace::Trace;
use tk_world::serialize;

/// The same trace with a list of events that its story runs.
fn ordered(alloc: Global, trace: Trace) -> Result<Trace, NoMemory>
    ensures names { IfOk result (λ t. t.names ≡ trace.names) }
    ensures story { IfOk result (λ t. t.story.story ≡ trace.story.story) }
    ensures shown { IfOk result (λ t. IsShownBy trace t.story) }
{
    let Trace { names, story } = trace;
    match serialize(alloc, story) {
        Ok(story) => Ok(Trace { names, story }),
        Err((NoMemory, story)) => {
            drop(story);
            drop(names);
            Err(NoMemory)
        }
    }
}

/// Serves `show`. Nothing is written before all of the file is found to be legal and an order of its events is found.
pub fn serve_show<F: Files, O: Sink>(
    alloc: Global,
    file: &str,
    files: &mut F,
    out: &mut O,
) -> Outcome
    ensures ran { IfDone result (RunsAsked (Shows file.now) (met_by F.Files O.Sink files.old files.new out.old out.new)) }
    ensures sound { IfSome result.story (λ s. IsSound s.story) }
    ensures ends { EndsAsked (Shows file.now) (met_by F.Files O.Sink files.old files.new out.old out.new) result.status }
    ensures without { (result.status ≡ Done → ⊥) → IsWithout result }
    ensures kept { AreKept F.Files files.old files.new }
    ensures failed { FailsAsTold (reads_by F.Files files.old files.new) result.status }
    ensures counted { O.fault_count out.new ≡ faults_told result.status (O.fault_count out.old) }
{
    let trace = match load_trace(alloc, file, files) {
        Ok(trace) => trace,
        Err(status) => return Outcome::ended(alloc, status),
    };
    a_finished_run_is_sound();
    let Ok(Trace { names, story }) = ordered(alloc, trace) else {
        return Outcome::ended(alloc, Status::NoMemory);
    };
    match show(alloc, &story, &names, out) {
        Ok(()) => Outcome::done(alloc, story),
        Err(PrintFault::WriteFailed) => Outcome::without(alloc, story, Status::WriteFault),
        Err(PrintFault::NoMemory) => Outcome::without(alloc, story, Status::NoMemory),
    }
}
