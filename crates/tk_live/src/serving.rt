//! The command `live`, from its words to what came of its run.

ghost use Rattle.std.specs.Prelude.{◌≡◌, Some, false, IfErr, IfOk, map, string_bytes};
ghost use Rattle.tk_frames.specs.Spelling.{IsVersion};
ghost use Rattle.tk_input.specs.Files.{HasRisen};
ghost use Rattle.tk_live.specs.Serving.{EndsWords, GivesNone, served};
ghost use Rattle.tk_load.specs.Surroundings.{faults_told};
ghost use Rattle.tk_live.specs.Traffic.{all_met};
ghost use Rattle.tk_load.specs.Reads.{AreKept};
ghost use Rattle.tk_load.specs.declared.status.Status.TheVariants.{LinkFault as Unlinked};
ghost use Rattle.tk_words.specs.Asked.{AreOfMonitors, asked_live};
ghost use Rattle.tk_words.specs.Words.{words_of};

use crate::living::live_over;
use crate::outcome::LiveOutcome;
use std::alloc::Global;
use std::marker::Sync;
use std::sync::Wait;
use std::thread::Threads;
use tk_input::{Files, Sink};
use tk_load::{Status, load};
use tk_serve::Gate;
use tk_wire::Net;
use tk_words::{Command, Live, WordsFault, read};

/// The words of a live run, or what is told of words that are of none.
fn read_live(alloc: Global, words: &[String]) -> Result<Live<'_>, Status>
    ensures asked { IfOk result (λ w. served (words_of (map string_bytes words.now)) ≡ Some (asked_live w)) }
    ensures monitors { IfOk result (λ w. AreOfMonitors w.sources.logs.items) }
    ensures frames { IfOk result (λ w. IsVersion w.frames) }
    ensures fault { IfErr result (GivesNone (map string_bytes words.now)) }
{
    match read(alloc, words) {
        Ok(Command::Live(words)) => Ok(words),
        Ok(_) => Err(Status::Usage),
        Err(WordsFault::Usage) => Err(Status::Usage),
        Err(WordsFault::NoMemory) => Err(Status::NoMemory),
    }
}

/// Serves `live`, over a net that has not listened yet. The words come without the program's name. It may wait, and what it
/// promises holds if it returns.
pub fn live<R: Threads + Wait + Sync, F: Files, N: Net, G: Gate + Sync, O: Sink>(
    rt: &R,
    alloc: Global,
    words: &[String],
    files: &mut F,
    net: &mut N,
    run: u64,
    gate: &G,
    out: &mut O,
) -> LiveOutcome
    requires listens { (N.state net.old).listens ≡ false }
    requires links { (N.state net.old).links ≡ 0 }
    // The words are refused, they give no input, or their input has run: all of the headline holds of what is done.
    ensures ends { EndsWords (map string_bytes words.now)
        (all_met F.Files O.Sink N.state files.old files.new out.old out.new net.old net.new) result }
    // Reading changes nothing that is told of the files.
    ensures kept { AreKept F.Files files.old files.new }
    // A failed link has its cause, and a failed write is told just where there is one.
    ensures failed { result.status ≡ Unlinked → HasRisen (N.state net.old).faults (N.state net.new).faults }
    ensures counted { O.fault_count out.new ≡ faults_told result.status (O.fault_count out.old) }
{
    let words = match read_live(alloc, words) {
        Ok(words) => words,
        Err(status) => return LiveOutcome::unstarted(status),
    };
    match load(rt, alloc, &words.sources, files) {
        Ok(input) => live_over(rt, alloc, input, words.frames, net, run, gate, out),
        Err(status) => LiveOutcome::unstarted(status),
    }
}
