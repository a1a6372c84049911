//! A trace that is checked.

ghost use Rattle.std.specs.Prelude.{◌≡◌, IfSome, OnErr, OnOk, length};
ghost use Rattle.tk_input.specs.Sink.{Grows, GrowsByFront};
ghost use Rattle.tk_ledger.specs.Printing.{print_faults};
ghost use Rattle.tk_load.specs.Reads.{AreKept, FailsAsTold, reads_by};
ghost use Rattle.tk_load.specs.declared.status.Status.TheVariants.{Done};
ghost use Rattle.tk_run.specs.Ends.{EndsAsked, RunsAsked, yes_text};
ghost use Rattle.tk_story.specs.Headline.{IsSound};
ghost use Rattle.tk_run.specs.Outcome.{IfDone, IsWithout};
ghost use Rattle.tk_load.specs.Surroundings.{faults_told, met_by};
ghost use Rattle.tk_words.specs.Words.Asked.{Checks};

use crate::outcome::Outcome;
use std::alloc::Global;
use tk_commands::load_trace;
use tk_input::{Catalog, Files, Sink};
use tk_ledger::{PrintFault, print_sets};
use tk_load::Status;
use tk_story::{Story, a_finished_run_is_sound};
use tk_trace::Trace;

/// Writes the sets that a run published, and that all of it is legal.
fn print_yes<O: Sink>(
    alloc: Global,
    story: &Story,
    names: &Catalog,
    out: &mut O,
) -> Result<(), PrintFault>
    requires { length names.now ≡ story.now.story.settings.objects }
    ensures ok { OnOk result (Grows (O.written out.old) (O.written out.new) (yes_text names.now story.now.story)) }
    ensures err { OnErr result (GrowsByFront (O.written out.old) (O.written out.new) (yes_text names.now story.now.story)) }
    ensures counted { O.fault_count out.new ≡ print_faults result (O.fault_count out.old) }
{
    print_sets(alloc, story, names, out)?;
    out.put(b"yes\n")?;
    Ok(())
}

/// Serves `check`. Nothing is written before all of the file is found to be legal.
pub fn serve_check<F: Files, O: Sink>(
    alloc: Global,
    file: &str,
    files: &mut F,
    out: &mut O,
) -> Outcome
    ensures ran { IfDone result (RunsAsked (Checks file.now) (met_by F.Files O.Sink files.old files.new out.old out.new)) }
    ensures sound { IfSome result.story (λ s. IsSound s.story) }
    ensures ends { EndsAsked (Checks file.now) (met_by F.Files O.Sink files.old files.new out.old out.new) result.status }
    ensures without { (result.status ≡ Done → ⊥) → IsWithout result }
    ensures kept { AreKept F.Files files.old files.new }
    ensures failed { FailsAsTold (reads_by F.Files files.old files.new) result.status }
    ensures counted { O.fault_count out.new ≡ faults_told result.status (O.fault_count out.old) }
{
    let Trace { names, story } = match load_trace(alloc, file, files) {
        Ok(trace) => trace,
        Err(status) => return Outcome::ended(alloc, status),
    };
    a_finished_run_is_sound();
    match print_yes(alloc, &story, &names, out) {
        Ok(()) => Outcome::done(alloc, story),
        Err(PrintFault::WriteFailed) => Outcome::without(alloc, story, Status::WriteFault),
        Err(PrintFault::NoMemory) => Outcome::without(alloc, story, Status::NoMemory),
    }
}
