//! The command `gen`: the run of logs from a seed, and its summary.

ghost use Rattle.std.specs.Prelude.{◌≡◌, IfSome};
ghost use Rattle.tk_load.specs.declared.status.Status.TheVariants.{Done};
ghost use Rattle.tk_run.specs.Ends.{EndsGenerated, RunsGenerated};
ghost use Rattle.tk_run.specs.Outcome.{IfDone, IsWithout};
ghost use Rattle.tk_load.specs.Surroundings.{faults_told, output_by};
ghost use Rattle.tk_story.specs.Headline.{IsSound};
ghost use Rattle.tk_words.specs.Asked.{asked_generate};

use crate::outcome::Outcome;
use crate::playing::{Played, story_of};
use std::alloc::Global;
use tk_commands::make;
use tk_input::Sink;
use tk_ledger::{PrintFault, print_summary};
use tk_load::Status;
use tk_words::{Carriage, Generate};

/// Serves `gen`. Nothing is written before the story is over.
pub fn serve<O: Sink>(alloc: Global, words: &Generate, out: &mut O) -> Outcome
    ensures ran { IfDone result (RunsGenerated (asked_generate words.now) (output_by O.Sink out.old out.new)) }
    ensures sound { IfSome result.story (λ s. IsSound s.story) }
    ensures ends { EndsGenerated (asked_generate words.now) (output_by O.Sink out.old out.new) result.status }
    ensures without { (result.status ≡ Done → ⊥) → IsWithout result }
    ensures counted { O.fault_count out.new ≡ faults_told result.status (O.fault_count out.old) }
{
    let input = match make(alloc, words) {
        Ok(input) => input,
        Err(status) => return Outcome::ended(alloc, status),
    };
    let Ok(Played { story, names, .. }) = story_of(alloc, input, Carriage::USUAL) else {
        return Outcome::ended(alloc, Status::NoMemory);
    };
    match print_summary(alloc, &story, &names, out) {
        Ok(()) => Outcome::done(alloc, story),
        Err(PrintFault::WriteFailed) => Outcome::without(alloc, story, Status::WriteFault),
        Err(PrintFault::NoMemory) => Outcome::without(alloc, story, Status::NoMemory),
    }
}
