//! The command `multi`: the runs of several queries, and the text of each behind its title.

ghost use Rattle.std.specs.Prelude.{◌≡◌, ◌+◌, All, IfOk, OnErr, OnOk, length};
ghost use Rattle.std.specs.List.{zip};
ghost use Rattle.tk_input.specs.Sink.{Grows, GrowsByFront};
ghost use Rattle.tk_ledger.specs.Printing.{print_faults};
ghost use Rattle.tk_load.specs.Reads.{AreKept, FailsAsTold, reads_by};
ghost use Rattle.tk_load.specs.declared.status.Status.TheVariants.{Done};
ghost use Rattle.tk_run.specs.Ends.{EndsAsked, RunsAsked};
ghost use Rattle.tk_run.specs.Multi.{queries_text, query_title};
ghost use Rattle.tk_run.specs.Outcome.{IfDone, IsWithout};
ghost use Rattle.tk_load.specs.Surroundings.{faults_told, met_by};
ghost use Rattle.tk_words.specs.Asked.{AreOfMonitors, asked_multi};
ghost use Rattle.tk_words.specs.Words.Asked.{Queries as Asks};

use crate::outcome::Outcome;
use crate::titled::print_titled;
use std::alloc::Global;
use std::marker::Sync;
use std::thread::Threads;
use tk_base::NoMemory;
use tk_commands::{MultiInput, load_multi};
use tk_input::{Catalog, Files, Sink};
use tk_ledger::PrintFault;
use tk_load::Status;
use tk_multi::{Queries, Told, tell};
use tk_story::{Story, a_finished_run_is_sound};
use tk_words::Multi;

/// The line above the text of a query.
fn title_of(alloc: Global, name: &[u8]) -> Result<Vec<u8>, NoMemory>
    ensures { IfOk result (λ title. title.items ≡ query_title name.now) }
{
    let mut title = Vec::new(alloc);
    title.extend_from_slice(b"query ")?;
    title.extend_from_slice(name)?;
    title.extend_from_slice(b"\n")?;
    Ok(title)
}

/// Writes the text of each query behind its title.
fn print_queries<O: Sink>(
    alloc: Global,
    queries: &Queries,
    names: &[Catalog],
    stories: &[Story],
    out: &mut O,
) -> Result<(), PrintFault>
    requires names { length names.now ≡ length queries.now }
    requires stories { length stories.now ≡ length queries.now }
    requires named { All (λ told. length told.0 ≡ told.1.story.settings.objects) (zip names.now stories.now) }
    ensures ok { OnOk result (Grows (O.written out.old) (O.written out.new) (queries_text queries.now names.now stories.now)) }
    ensures err { OnErr result
        (GrowsByFront (O.written out.old) (O.written out.new) (queries_text queries.now names.now stories.now)) }
    ensures counted { O.fault_count out.new ≡ print_faults result (O.fault_count out.old) }
{
    for i in 0..queries.len() {
        let title = title_of(alloc, queries.name(i as u32 + 1))?;
        print_titled(alloc, title.as_slice(), &stories[i], &names[i], out)?;
    }
    Ok(())
}

/// Serves `multi`. Nothing is written before the input stands and every story is over.
pub fn serve_queries<R: Threads + Sync, F: Files, O: Sink>(
    rt: &R,
    alloc: Global,
    words: &Multi<'_>,
    files: &mut F,
    out: &mut O,
) -> Outcome
    requires monitors { AreOfMonitors words.now.logs.items }
    ensures ran { IfDone result (RunsAsked (Asks (asked_multi words.now))
        (met_by F.Files O.Sink files.old files.new out.old out.new)) }
    ensures ends { EndsAsked (Asks (asked_multi words.now))
        (met_by F.Files O.Sink files.old files.new out.old out.new) result.status }
    ensures without { (result.status ≡ Done → ⊥) → IsWithout result }
    ensures kept { AreKept F.Files files.old files.new }
    ensures failed { FailsAsTold (reads_by F.Files files.old files.new) result.status }
    ensures counted { O.fault_count out.new ≡ faults_told result.status (O.fault_count out.old) }
{
    let MultiInput {
        queries,
        logs,
        alones,
        order,
    } = match load_multi(rt, alloc, words, files) {
        Ok(input) => input,
        Err(status) => return Outcome::ended(alloc, status),
    };
    let Ok(Told { names, stories }) = tell(alloc, logs, alones, &order) else {
        return Outcome::ended(alloc, Status::NoMemory);
    };
    a_finished_run_is_sound();
    match print_queries(alloc, &queries, names.as_slice(), stories.as_slice(), out) {
        Ok(()) => Outcome::several(stories),
        Err(PrintFault::WriteFailed) => Outcome::without(alloc, stories, Status::WriteFault),
        Err(PrintFault::NoMemory) => Outcome::without(alloc, stories, Status::NoMemory),
    }
}
