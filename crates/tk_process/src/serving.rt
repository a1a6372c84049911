//! Which of the two commands the words name, and what comes of it.

ghost use Rattle.std.specs.Prelude.{◌≡◌, map, string_bytes};
ghost use Rattle.tk_load.specs.Reads.{AreKept};
ghost use Rattle.tk_load.specs.Surroundings.{faults_told, met_by};
ghost use Rattle.tk_process.specs.Serving.{EndsProcess};

use crate::coordinate::serve_coordinator;
use crate::makers::{Dialers, Hosts};
use crate::monitor::serve_monitor;
use std::alloc::Global;
use std::marker::{Send, Sync};
use std::sync::Wait;
use std::thread::Threads;
use std::time::Clock;
use tk_input::{Files, Sink};
use tk_load::Status;
use tk_stream::Streams;
use tk_wire::{Bell, Dialed, Dialer, Rest};
use tk_words::{Command, WordsFault, read};

/// Serves `coordinate` and `monitor`. The words come without the program's name. It may wait.
pub fn process<
    R: Threads + Wait + Clock + Copy + Send + 'static,
    F: Files,
    S: Streams,
    H: Hosts,
    L: Dialed + Send + Drop + 'static,
    Q: Rest + Send + Drop,
    B: Bell + Send + Sync + Drop + 'static,
    D: Dialer<Link = L, Rest = Q, Bell = B> + Drop,
    M: Dialers<Dialer = D>,
    O: Sink,
>(
    rt: R,
    alloc: Global,
    words: &[String],
    files: &mut F,
    streams: &mut S,
    hosts: &mut H,
    dialers: &mut M,
    out: &mut O,
) -> Status
    // The words are refused, they give no input, or the process ran over exactly what they say.
    ensures ends { EndsProcess L (map string_bytes words.now)
        (met_by F.Files O.Sink files.old files.new out.old out.new) result }
    // Reading changes nothing that is told of the files.
    ensures kept { AreKept F.Files files.old files.new }
    // A failed write is told just where there is one.
    ensures counted { O.fault_count out.new ≡ faults_told result (O.fault_count out.old) }
{
    match read(alloc, words) {
        Ok(Command::Coordinate(words)) => {
            serve_coordinator(&rt, alloc, &words, files, hosts, out)
        }
        Ok(Command::Monitor(words)) => {
            serve_monitor(rt, alloc, &words, files, streams, dialers, out)
        }
        Ok(_) => Status::Usage,
        Err(WordsFault::Usage) => Status::Usage,
        Err(WordsFault::NoMemory) => Status::NoMemory,
    }
}
