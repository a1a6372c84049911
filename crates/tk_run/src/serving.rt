//! Which command the words name, and what comes of it, for all commands but `live`.

ghost use Rattle.std.specs.Prelude.{◌≡◌, IfSome, false, map, string_bytes};
ghost use Rattle.tk_load.specs.Reads.{AreKept, FailsAsTold, reads_by};
ghost use Rattle.tk_load.specs.declared.status.Status.TheVariants.{Done, Usage};
ghost use Rattle.tk_run.specs.Ends.{EndsWords, RunsWords, serves};
ghost use Rattle.tk_words.specs.Words.{verb_of as verb_named_by};
ghost use Rattle.tk_story.specs.Headline.{IsSound};
ghost use Rattle.tk_run.specs.Outcome.{IfDone, IsWithout};
ghost use Rattle.tk_load.specs.Surroundings.{faults_told, met_by};

use crate::check::serve_check;
use crate::constant::serve_text;
use crate::generated::serve as generate;
use crate::multi::serve_queries;
use crate::outcome::Outcome;
use crate::replay::replay;
use crate::sessions::serve_sessions;
use crate::show::serve_show;
use crate::trace::serve_trace;
use std::alloc::Global;
use std::marker::Sync;
use std::thread::Threads;
use tk_input::{Files, Sink};
use tk_load::Status;
use tk_words::{Command, Verb, WordsFault, manual_of, read, verb_of, version_line};

/// Whether `run` serves the command that the first word names.
fn is_served(words: &[String]) -> bool
    ensures { result ≡ serves (verb_named_by (map string_bytes words.now)) }
{
    match verb_of(words) {
        Some(Verb::Live) => false,
        Some(Verb::Coordinate) => false,
        Some(Verb::Monitor) => false,
        Some(_) => true,
        None => false,
    }
}

/// Serves all commands but `live`, `coordinate` and `monitor`. The words come without the program's name.
pub fn run<R: Threads + Sync, F: Files, O: Sink>(
    rt: &R,
    alloc: Global,
    words: &[String],
    files: &mut F,
    out: &mut O,
) -> Outcome
    // what is done is the story, or the stories, of what the words ask for, and what was written is its text
    ensures ran { IfDone result (RunsWords (map string_bytes words.now)
        (met_by F.Files O.Sink files.old files.new out.old out.new)) }
    // for a story all of the headline holds; nothing else that ends has any
    ensures sound { IfSome result.story (λ s. IsSound s.story) }
    ensures without { (result.status ≡ Done → ⊥) → IsWithout result }
    // words of no command that it serves are not understood, whatever memory there is
    ensures unserved { serves (verb_named_by (map string_bytes words.now)) ≡ false → result.status ≡ Usage }
    // any other status tells the fault that there is
    ensures ends { EndsWords (map string_bytes words.now)
        (met_by F.Files O.Sink files.old files.new out.old out.new) result.status }
    ensures kept { AreKept F.Files files.old files.new }
    // no failed read is lost: it is told, but behind another rule that fails
    ensures failed { FailsAsTold (reads_by F.Files files.old files.new) result.status }
    ensures counted { O.fault_count out.new ≡ faults_told result.status (O.fault_count out.old) }
{
    if !is_served(words) {
        return Outcome::ended(alloc, Status::Usage);
    }
    match read(alloc, words) {
        Ok(Command::Replay(words)) => replay(rt, alloc, &words, files, out),
        Ok(Command::Generate(words)) => generate(alloc, &words, out),
        // A live run has a call of its own, and so has each of the two that run as processes of their own.
        Ok(Command::Live(_)) => Outcome::ended(alloc, Status::Usage),
        Ok(Command::Multi(words)) => serve_queries(rt, alloc, &words, files, out),
        Ok(Command::Sessions(words)) => serve_sessions(rt, alloc, &words, files, out),
        Ok(Command::Trace(words)) => serve_trace(rt, alloc, &words, files, out),
        Ok(Command::Check(file)) => serve_check(alloc, file, files, out),
        Ok(Command::Show(file)) => serve_show(alloc, file, files, out),
        Ok(Command::Coordinate(_)) => Outcome::ended(alloc, Status::Usage),
        Ok(Command::Monitor(_)) => Outcome::ended(alloc, Status::Usage),
        Ok(Command::Help(command)) => serve_text(alloc, manual_of(command), out),
        Ok(Command::Version) => serve_text(alloc, version_line(), out),
        Err(WordsFault::Usage) => Outcome::ended(alloc, Status::Usage),
        Err(WordsFault::NoMemory) => Outcome::ended(alloc, Status::NoMemory),
    }
}
