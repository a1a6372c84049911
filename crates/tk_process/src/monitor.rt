//! The command `monitor`.

ghost use Rattle.std.specs.Prelude.{◌≡◌, IfErr, IfOk, length, option_map};
ghost use Rattle.tk_load.specs.Reads.{AreKept};
ghost use Rattle.tk_load.specs.Surroundings.{faults_told, met_by};
ghost use Rattle.tk_process.specs.Monitoring.{EndsMonitor, FeedsAs, IsUnopened, TellsVerdict, kind_of};
ghost use Rattle.tk_words.specs.Asked.{IsWatched, asked_monitor};

use crate::makers::Dialers;
use std::alloc::Global;
use std::marker::{Send, Sync};
use std::sync::Wait;
use std::thread::Threads;
use std::time::Clock;
use tk_base::Mon;
use tk_commands::load_monitor;
use tk_input::{Files, Sink};
use tk_load::{InputKind, Status};
use tk_stream::{LineFault, OpenFault, Records, Streams};
use tk_watch::{FeedFault, FeedKind, Plan, Verdict, Watch, Window, monitor};
use tk_wire::{Bell, Dialed, Dialer, Rest};
use tk_words::{Recent, Watched as Words};

/// What is wrong with a line of a stream, as an input has it.
fn kind_by(fault: LineFault) -> InputKind
    ensures { result ≡ kind_of fault }
{
    match fault {
        LineFault::TooLong => InputKind::LineTooLong,
        LineFault::BadRow => InputKind::BadRow,
        LineFault::UnknownName => InputKind::UnknownName,
        LineFault::BadNumber => InputKind::BadNumber,
    }
}

/// The status of a process that the stream with this name ended.
fn status_by_stream(alloc: Global, number: Mon, source: &str, kind: FeedKind) -> Status
    ensures { FeedsAs number.0 source.now kind result }
{
    let Ok(file) = Vec::from_slice(alloc, source.as_bytes()) else {
        return Status::NoMemory;
    };
    match kind {
        FeedKind::Unread => Status::ReadFault { file },
        FeedKind::Bad { line, fault } => Status::BadInput {
            file,
            line,
            kind: kind_by(fault),
        },
        FeedKind::TooGreat(obj) => Status::TooGreat { mon: number, obj },
        FeedKind::NoMemory => Status::NoMemory,
    }
}

/// What the process of a monitor ended with.
fn status_by(alloc: Global, words: &Words<'_>, verdict: Verdict) -> Status
    ensures { TellsVerdict (asked_monitor words.now) verdict result }
{
    match verdict {
        Verdict::Done => Status::Done,
        Verdict::WriteFault => Status::WriteFault,
        Verdict::NoMemory => Status::NoMemory,
        Verdict::LinkFault => Status::LinkFault,
        Verdict::Fed(FeedFault { stream, kind }) => {
            let i = (stream.0 as usize).saturating_sub(1);
            match words.sources.get(i) {
                Some(source) => status_by_stream(alloc, words.number, source, kind),
                None => Status::NoMemory,
            }
        }
    }
}

/// The window that the words ask for, as the monitor has it.
fn window_of(recent: Option<Recent>) -> Option<Window>
    ensures width { option_map (λ w. w.width) result ≡ option_map (λ r. r.width) recent }
    ensures tick { option_map (λ w. w.tick) result ≡ option_map (λ r. r.tick) recent }
{
    match recent {
        Some(Recent { width, tick }) => Some(Window { width, tick }),
        None => None,
    }
}

/// Opens the sources that the words name, in order.
fn open_all<S: Streams>(
    alloc: Global,
    words: &Words<'_>,
    streams: &mut S,
) -> Result<Vec<Records<S::Source>>, Status>
    ensures each { IfOk result (λ sources. length sources.items ≡ length words.now.sources.items) }
    ensures unopened { IfErr result (λ status. IsUnopened (asked_monitor words.now) status) }
{
    let mut sources = Vec::with_capacity(alloc, words.sources.len())?;
    for name in &words.sources {
        let source = match streams.open(name) {
            Ok(source) => source,
            Err(OpenFault::NoMemory) => return Err(Status::NoMemory),
            Err(OpenFault::Failed) => {
                return Err(status_by_stream(alloc, words.number, name, FeedKind::Unread));
            }
        };
        sources.push(Records::new(alloc, source, words.skip_bad)?)?;
    }
    Ok(sources)
}

/// Runs a monitor over the streams that the words name.
pub fn serve_monitor<
    R: Threads + Wait + Clock + Copy + Send + 'static,
    F: Files,
    S: Streams,
    L: Dialed + Send + Drop + 'static,
    Q: Rest + Send + Drop,
    B: Bell + Send + Sync + Drop + 'static,
    D: Dialer<Link = L, Rest = Q, Bell = B> + Drop,
    M: Dialers<Dialer = D>,
    O: Sink,
>(
    rt: R,
    alloc: Global,
    words: &Words<'_>,
    files: &mut F,
    streams: &mut S,
    dialers: &mut M,
    out: &mut O,
) -> Status
    requires { IsWatched words.now }
    ensures ends { EndsMonitor L (asked_monitor words.now)
        (met_by F.Files O.Sink files.old files.new out.old out.new) result }
    ensures kept { AreKept F.Files files.old files.new }
    ensures counted { O.fault_count out.new ≡ faults_told result (O.fault_count out.old) }
{
    let input = match load_monitor(alloc, words, files) {
        Ok(input) => input,
        Err(status) => return status,
    };
    let sources = match open_all(alloc, words, streams) {
        Ok(sources) => sources,
        Err(status) => return status,
    };
    let Ok(mut dialer) = dialers.dialer(words.connect, words.silence) else {
        return Status::NoMemory;
    };
    // That the settings are within their limits is told by this alone.
    let _ = input.settings.monitors();
    let Ok(watch) = Watch::new(
        alloc,
        &input.settings,
        words.number,
        sources.as_slice().len() as u32,
        input.run,
        words.frames,
    ) else {
        return Status::NoMemory;
    };
    let plan = Plan {
        pause: words.pause,
        tries: words.tries,
        window: window_of(words.window),
    };
    let verdict = monitor(
        rt,
        alloc,
        watch,
        input.names,
        sources,
        &plan,
        &mut dialer,
        out,
    );
    status_by(alloc, words, verdict)
}
