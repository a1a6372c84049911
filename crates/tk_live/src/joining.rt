//! What comes of the ends of a live run: its story and ledger, or a difference between two of them.

ghost use Rattle.std.specs.Prelude.{◌≡◌, OnOk, OnErr};
ghost use Rattle.tk_input.specs.Sink.{Grows, GrowsByFront};
ghost use Rattle.tk_load.specs.Surroundings.{faults_told, output_by};
ghost use Rattle.tk_story.specs.Ends.{AreOfOneRun};
ghost use Rattle.tk_ledger.specs.Printing.{print_faults};
ghost use Rattle.tk_live.specs.Joining.{ConcludesEnds, ConcludesStory, ledger_lines, printed_as};
ghost use Rattle.tk_load.specs.declared.status.Status.TheVariants.{LinkFault as Unlinked};

use crate::faults::of_join;
use crate::outcome::LiveOutcome;
use std::alloc::Global;
use tk_base::{Cut, Settings};
use tk_input::{Logs, Sink};
use tk_ledger::{Ledger, PrintFault, print_ledger};
use tk_load::Status;
use tk_story::{Ends, Story, a_finished_run_is_sound};
use tk_world::serialize;

/// Writes the lines of the ledger of a story.
fn print<O: Sink>(alloc: Global, story: &Story, out: &mut O) -> Result<(), PrintFault>
    ensures ok { OnOk result (Grows (O.written out.old) (O.written out.new) (ledger_lines story.now.story)) }
    ensures err { OnErr result (GrowsByFront (O.written out.old) (O.written out.new) (ledger_lines story.now.story)) }
    ensures counted { O.fault_count out.new ≡ print_faults result (O.fault_count out.old) }
{
    let Ok(ledger) = Ledger::of(alloc, story) else {
        return Err(PrintFault::NoMemory);
    };
    print_ledger(alloc, &ledger, out)
}

/// What is told of a story whose ledger was printed so.
fn told_of(printed: Result<(), PrintFault>) -> Status
    ensures { result ≡ printed_as printed }
{
    match printed {
        Ok(()) => Status::Done,
        Err(PrintFault::WriteFailed) => Status::WriteFault,
        Err(PrintFault::NoMemory) => Status::NoMemory,
    }
}

/// Gives a story that is over its events, and writes the lines of its ledger.
fn finish<O: Sink>(alloc: Global, story: Story, out: &mut O) -> LiveOutcome
    ensures concludes { ConcludesStory story.story (output_by O.Sink out.old out.new) result }
    ensures unlinked { result.status ≡ Unlinked → ⊥ }
    ensures counted { O.fault_count out.new ≡ faults_told result.status (O.fault_count out.old) }
{
    // The journal is read for its clause, that the story is legal; the law says that it is sound.
    let _ = story.journal();
    a_finished_run_is_sound();
    let story = match serialize(alloc, story) {
        Ok(story) => story,
        Err((_, story)) => return LiveOutcome::told(Status::NoMemory, story),
    };
    let printed = print(alloc, &story, out);
    LiveOutcome::told(told_of(printed), story)
}

/// Joins the ends: to the story that they tell, or to the first difference between them.
pub fn join_ends<O: Sink>(
    alloc: Global,
    settings: Settings,
    logs: Logs,
    from: Cut,
    ends: Ends,
    out: &mut O,
) -> LiveOutcome
    requires { AreOfOneRun ends.coordinator ends.monitors.items logs settings from }
    ensures concludes { ConcludesEnds settings logs from ends (output_by O.Sink out.old out.new) result }
    ensures unlinked { result.status ≡ Unlinked → ⊥ }
    ensures counted { O.fault_count out.new ≡ faults_told result.status (O.fault_count out.old) }
{
    let Ends {
        coordinator,
        monitors,
    } = ends;
    match Story::join(coordinator, monitors, logs, settings, from, Vec::new(alloc)) {
        Ok(story) => finish(alloc, story, out),
        Err((fault, ends)) => LiveOutcome::kept(of_join(fault), ends),
    }
}
