//! Runs in which the coordinator may restart.

ghost use Rattle.std.specs.Prelude.{◌≡◌, All, IfOk, None, OnErr, OnOk, length};
ghost use Rattle.tk_input.specs.Sink.{Grows, GrowsByFront};
ghost use Rattle.tk_ledger.specs.Printing.{print_faults};
ghost use Rattle.tk_load.specs.Whole.{AreAgreed};
ghost use Rattle.tk_load.specs.Reads.{AreKept, FailsAsTold, reads_by};
ghost use Rattle.tk_load.specs.declared.status.Status.TheVariants.{Done};
ghost use Rattle.tk_run.specs.Ends.{EndsAsked, RunsAsked};
ghost use Rattle.tk_run.specs.Outcome.{IfDone, IsWithout};
ghost use Rattle.tk_load.specs.Surroundings.{faults_told, met_by};
ghost use Rattle.tk_run.specs.Sessions.{AreStoriesOf, lines_in, session_title, stories_text};
ghost use Rattle.tk_session.specs.Chain.{IsChainOf};
ghost use Rattle.tk_words.specs.Asked.{AreOfMonitors, asked_sources};
ghost use Rattle.tk_words.specs.Words.Asked.{Restarts};

use crate::headline::sessions_are_sound;
use crate::outcome::Outcome;
use crate::titled::print_titled;
use itoa::Buffer;
use std::alloc::Global;
use std::marker::Sync;
use std::thread::Threads;
use tk_base::{NoMemory, Settings};
use tk_commands::{SessionInput, load_sessions};
use tk_input::{Catalog, Files, Logs, Sink};
use tk_ledger::PrintFault;
use tk_load::Status;
use tk_session::{SessionOrder, tell};
use tk_story::Story;
use tk_words::Sources;

/// The stories of an order, or of the one session that there is without an order.
fn tell_by(
    alloc: Global,
    settings: Settings,
    logs: Logs,
    order: Option<SessionOrder>,
) -> Result<Vec<Story>, NoMemory>
    requires objects { logs.objects ≡ settings.objects }
    requires monitors { length logs.logs ≡ settings.monitors }
    ensures { IfOk result (λ stories. IsChainOf settings logs (lines_in order) stories.items) }
{
    if let Some(order) = order {
        return tell(alloc, settings, logs, &order);
    }
    // No line is at fault where there is none.
    match SessionOrder::read(alloc, b"") {
        Ok(order) => tell(alloc, settings, logs, &order),
        Err(_) => Err(NoMemory),
    }
}

/// The stories of an input, and the names for their text.
#[derive(Drop)]
struct Told {
    names: Catalog,
    stories: Vec<Story>,
}

fn stories_of(alloc: Global, input: SessionInput) -> Result<Told, NoMemory>
    requires agreed { AreAgreed input.names input.settings input.logs }
    ensures same { IfOk result (λ t. t.names ≡ input.names) }
    ensures names { IfOk result (λ t. All (λ kept. length t.names ≡ kept.story.settings.objects) t.stories.items) }
    ensures stories { IfOk result (λ t. AreStoriesOf input t.stories.items) }
{
    let SessionInput {
        names,
        settings,
        logs,
        order,
    } = input;
    let stories = tell_by(alloc, settings, logs, order)?;
    sessions_are_sound();
    Ok(Told { names, stories })
}

/// The line in front of a session.
fn title_of(alloc: Global, number: u64) -> Result<Vec<u8>, NoMemory>
    ensures { IfOk result (λ title. title.items ≡ session_title number) }
{
    let mut buffer = Buffer::new();
    let mut title = Vec::from_slice(alloc, b"session ")?;
    title.extend_from_slice(buffer.format(number).as_bytes())?;
    title.extend_from_slice(b"\n")?;
    Ok(title)
}

/// Writes each session behind its title.
fn print_sessions<O: Sink>(
    alloc: Global,
    stories: &[Story],
    names: &Catalog,
    out: &mut O,
) -> Result<(), PrintFault>
    requires { All (λ kept. length names.now ≡ kept.story.settings.objects) stories.now }
    ensures ok { OnOk result (Grows (O.written out.old) (O.written out.new) (stories_text names.now stories.now)) }
    ensures err { OnErr result (GrowsByFront (O.written out.old) (O.written out.new) (stories_text names.now stories.now)) }
    ensures counted { O.fault_count out.new ≡ print_faults result (O.fault_count out.old) }
{
    for i in 0..stories.len() {
        let title = title_of(alloc, i as u64 + 1)?;
        print_titled(alloc, title.as_slice(), &stories[i], names, out)?;
    }
    Ok(())
}

/// Serves `sessions`. Nothing is written before the input stands and all its sessions are over.
pub fn serve_sessions<R: Threads + Sync, F: Files, O: Sink>(
    rt: &R,
    alloc: Global,
    words: &Sources<'_>,
    files: &mut F,
    out: &mut O,
) -> Outcome
    requires { AreOfMonitors words.now.logs.items }
    ensures ran { IfDone result (RunsAsked (Restarts (asked_sources words.now))
        (met_by F.Files O.Sink files.old files.new out.old out.new)) }
    ensures several { result.story ≡ None }
    ensures ends { EndsAsked (Restarts (asked_sources words.now))
        (met_by F.Files O.Sink files.old files.new out.old out.new) result.status }
    ensures without { (result.status ≡ Done → ⊥) → IsWithout result }
    ensures kept { AreKept F.Files files.old files.new }
    ensures failed { FailsAsTold (reads_by F.Files files.old files.new) result.status }
    ensures counted { O.fault_count out.new ≡ faults_told result.status (O.fault_count out.old) }
{
    let input = match load_sessions(rt, alloc, words, files) {
        Ok(input) => input,
        Err(status) => return Outcome::ended(alloc, status),
    };
    let Ok(Told { names, stories }) = stories_of(alloc, input) else {
        return Outcome::ended(alloc, Status::NoMemory);
    };
    match print_sessions(alloc, stories.as_slice(), &names, out) {
        Ok(()) => Outcome::several(stories),
        Err(PrintFault::WriteFailed) => Outcome::without(alloc, stories, Status::WriteFault),
        Err(PrintFault::NoMemory) => Outcome::without(alloc, stories, Status::NoMemory),
    }
}
