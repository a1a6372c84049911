//! `topk`: replays change logs through the top-k protocol, and prints each published set with the log
//! prefixes of which it speaks, then a ledger of messages.
//!
//! It makes the true files, streams, output and nets, and calls `run`, `live` or `process`, which promise the rest.
#![tactic(auto)]

mod sockets;

use sockets::{SocketDialers, SocketHosts};
use std::alloc::AllocGlobal;
use std::fs::File;
use std::io::{Print, Write};
use std::net::TcpStream;
use std::process::ExitCode;
use std::random::RandomSource;
use std::sync::Wait;
use std::thread::Threads;
use std::time::Clock;
use std::{env, io, rt};
use tk_input::{StdSink, TrueFiles};
use tk_live::{LiveOutcome, live, run_number};
use tk_net::LoopNet;
use tk_process::process;
use tk_run::{Status, fault_line, run};
use tk_serve::OpenGate;
use tk_stream::TrueStreams;
use tk_words::{Verb, verb_of};

/// Leaves what a run kept to the system, which takes it back with the process: to free each frame by itself would take up
/// to a quarter of the run.
fn leave<T: Drop>(one: Option<T>, mut several: Vec<T>) {
    if let Some(one) = one {
        // Where there is no room for it, it is freed.
        let _ = several.push(one);
    }
    several.leak();
}

/// Runs the words live, over sockets of this machine.
fn run_live<R: AllocGlobal + RandomSource + Print + rt::Files + rt::Net + Threads + Wait + Sync>(
    rt: &R,
    words: &[String],
) -> Status {
    let alloc = rt.alloc();
    let Ok(mut net) = LoopNet::new(alloc, rt) else {
        return Status::NoMemory;
    };
    let mut files = TrueFiles::new(alloc, rt);
    let mut out = StdSink::new(rt);
    let run = run_number(rt);
    let LiveOutcome {
        status,
        story,
        ends,
    } = live(
        rt, alloc, words, &mut files, &mut net, run, &OpenGate, &mut out,
    );
    leave(story, Vec::new(alloc));
    leave(ends, Vec::new(alloc));
    status
}

/// Runs the words of a process of its own, over streams and sockets.
fn run_process<
    R: AllocGlobal
        + Print
        + rt::Files<File = File>
        + rt::Net<Stream = TcpStream>
        + Threads
        + Wait
        + Clock
        + Sync
        + Copy
        + Send
        + 'static,
>(rt: &R, words: &[String]) -> Status {
    let alloc = rt.alloc();
    let mut files = TrueFiles::new(alloc, rt);
    let mut streams = TrueStreams::new(rt);
    let mut hosts = SocketHosts::new(alloc, rt);
    let mut dialers = SocketDialers::new(alloc, rt);
    let mut out = StdSink::new(rt);
    process(
        *rt,
        alloc,
        words,
        &mut files,
        &mut streams,
        &mut hosts,
        &mut dialers,
        &mut out,
    )
}

/// The words of the command line, without the program's name. Where one is no UTF-8 they are not understood.
fn words_of(rt: &HostRuntime) -> Result<Vec<String>, Status> {
    let mut words = Vec::new(rt.alloc());
    let args = match env::args(rt) {
        Ok(args) => args,
        Err(error) if error.kind() == io::ErrorKind::OutOfMemory => return Err(Status::NoMemory),
        Err(_) => return Err(Status::Usage),
    };
    for word in args.skip(1) {
        words.push(word)?;
    }
    Ok(words)
}

/// Runs the words on the real files and the standard output, and answers the status.
fn run_words<R: AllocGlobal + Print + rt::Files + Threads + Sync>(
    rt: &R,
    words: &[String],
) -> Status {
    let alloc = rt.alloc();
    let mut files = TrueFiles::new(alloc, rt);
    let mut out = StdSink::new(rt);
    let outcome = run(rt, alloc, words, &mut files, &mut out);
    leave(outcome.story, outcome.stories);
    outcome.status
}

/// Writes the fault of a status to standard error. Where that fails, the number alone tells it.
fn tell(rt: &HostRuntime, status: &Status) {
    let Ok(mut line) = fault_line(rt.alloc(), status) else {
        return;
    };
    if line.is_empty() || line.push(b'\n').is_err() {
        return;
    }
    let _ = rt.stderr().write_all(line.as_slice());
}

fn main(rt: HostRuntime) -> ExitCode {
    let status = match words_of(&rt) {
        Ok(words) => match verb_of(words.as_slice()) {
            Some(Verb::Live) => run_live(&rt, words.as_slice()),
            Some(Verb::Coordinate | Verb::Monitor) => run_process(&rt, words.as_slice()),
            _ => run_words(&rt, words.as_slice()),
        },
        Err(status) => status,
    };
    tell(&rt, &status);
    ExitCode::from(status.number())
}
