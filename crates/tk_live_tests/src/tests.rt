//! How live runs end over links in memory: whole, or with a failed call, a turned byte or a failed output.

ghost use Rattle.std.specs.Prelude.{◌≡◌, false, IfSome};

use crate::case::Case;
use crate::meeting::Meeting;
use crate::words::{files, words};
use std::alloc::Global;
use std::marker::Sync;
use std::sync::Wait;
use std::test::Fail;
use std::thread::Threads;
use tk_frames::Kind;
use tk_input::{MapFiles, Sink, VecSink};
use tk_live::{live, live_over, run_number};
use tk_load::Status;
use tk_net::MemNet;
use tk_story::{Difference, Direction};
use tk_wire::Net;

/// The call at which each net in memory fails, so that no run waits for ever: one that needs so many ends with a failed link.
const MOST: u64 = 10_000_000;

/// How much text a run may write.
const ROOM: usize = 1_000;

/// How a run ended, without what differs.
#[derive(Clone, Copy, Debug, PartialEq)]
enum Ended {
    Done,
    WriteFault,
    LinkFault,
    /// A link up differs, where a frame of this kind was sent.
    UpDiffers(Kind),
    /// A link down differs, where a frame of this kind was sent.
    DownDiffers(Kind),
    /// A link differs where nothing was sent.
    NothingSent,
    NoMemory,
    /// No input was run.
    NotRun,
}

fn differing(difference: &Difference) -> Ended {
    match (&difference.sent, difference.direction) {
        (Some(frame), Direction::UpLink) => Ended::UpDiffers(frame.kind()),
        (Some(frame), Direction::DownLink) => Ended::DownDiffers(frame.kind()),
        (None, _) => Ended::NothingSent,
    }
}

fn end_of(status: &Status) -> Ended {
    match status {
        Status::Done => Ended::Done,
        Status::WriteFault => Ended::WriteFault,
        Status::LinkFault => Ended::LinkFault,
        Status::LinkDiffers(difference) => differing(difference),
        Status::NoMemory => Ended::NoMemory,
        _ => Ended::NotRun,
    }
}

/// Whether some bytes stand in a text.
fn has(text: &[u8], bytes: &[u8]) -> bool {
    for i in 0..text.len() {
        if text[i..].starts_with(bytes) {
            return true;
        }
    }
    false
}

/// How a case ends over a net. Here and below what is run is lent or dropped by name, and tests look at plain answers, since
/// each place that drops a net or a run by itself is dear to prove.
fn ended_over<R: Threads + Wait + Sync>(
    rt: &R,
    alloc: Global,
    case: Case,
    net: &mut MemNet,
    gate: &Meeting,
    out: &mut VecSink,
) -> Option<Ended>
    requires listens { net.old.state.listens ≡ false }
    requires links { net.old.state.links ≡ 0 }
{
    let input = case.input(alloc)?;
    let status = live_over(rt, alloc, input, 1, net, 5, gate, out).into_status();
    let ended = end_of(&status);
    drop(status);
    Some(ended)
}

/// A net in memory that fails a call and turns a byte.
fn memory(alloc: Global, call: u64, flip: Option<u64>) -> Option<MemNet>
    ensures listens { IfSome result (λ net. net.state.listens ≡ false) }
    ensures links { IfSome result (λ net. net.state.links ≡ 0) }
{
    let fails = Vec::from_slice(alloc, &[call, MOST]).ok()?;
    MemNet::new(alloc, fails, flip).ok()
}

/// How a run ends over a net in memory that fails a call and turns a byte.
fn over_memory<R: Threads + Wait + Sync>(
    rt: &R,
    alloc: Global,
    case: Case,
    call: u64,
    flip: Option<u64>,
    gate: &Meeting,
    out: &mut VecSink,
) -> Option<Ended> {
    let mut net = memory(alloc, call, flip)?;
    let ended = ended_over(rt, alloc, case, &mut net, gate, out);
    drop(net);
    ended
}

/// How such a run ends, whether nothing was written, and whether its last set is a over both whole logs of two feeders.
fn in_memory<R: Threads + Wait + Sync>(
    rt: &R,
    alloc: Global,
    case: Case,
    call: u64,
    flip: Option<u64>,
    gate: &Meeting,
) -> Option<(Ended, bool, bool)> {
    let mut out = VecSink::new(alloc, ROOM, Vec::new(alloc)).ok()?;
    let ended = over_memory(rt, alloc, case, call, flip, gate, &mut out);
    let text = out.written();
    let (is_empty, is_whole) = (text.is_empty(), has(text, b" cut 1:1,2 members a\n"));
    drop(out);
    Some((ended?, is_empty, is_whole))
}

/// The same where no feeder is held.
fn in_the_open<R: Threads + Wait + Sync>(
    rt: &R,
    alloc: Global,
    case: Case,
    call: u64,
    flip: Option<u64>,
) -> Option<(Ended, bool, bool)> {
    in_memory(rt, alloc, case, call, flip, &Meeting::open())
}

#[test]
fn two_feeders_of_a_monitor_run_at_once(rt: HostRuntime) -> Result<(), Fail> {
    let alloc = rt.alloc();
    let gate = Meeting::new();
    let seen = in_memory(&rt, alloc, Case::TwoFeeders, MOST, None, &gate);
    assert_eq!(rt;
        (seen, gate.missed()),
        (Some((Ended::Done, false, true)), false)
    );
    Ok(())
}

/// Whether a text ends with the set a over the whole logs of two monitors and tells how many bytes of frames came over the
/// links: of all bytes those but a Hello of 18 of each monitor, which stands in front of its frames.
fn is_told(alloc: Global, taken: u64, text: &[u8]) -> Option<bool> {
    let line = format!(in alloc; "\nbytes {}\n", taken.checked_sub(36)?).ok()?;
    let is_told = has(text, b" cut 1:1 2:1 members a\n") && has(text, line.as_bytes());
    drop(line);
    Some(is_told)
}

/// How a run of two monitors ends over links in memory, and how many bytes were given to them, if just these were taken from
/// them.
fn over_links<R: Threads + Wait + Sync>(
    rt: &R,
    alloc: Global,
    out: &mut VecSink,
) -> Option<(Ended, u64)> {
    let mut net = memory(alloc, MOST, None)?;
    let ended = ended_over(
        rt,
        alloc,
        Case::TwoMonitors,
        &mut net,
        &Meeting::open(),
        out,
    );
    let (given, taken) = (net.given(), net.taken());
    drop(net);
    if given == taken {
        Some((ended?, given))
    } else {
        None
    }
}

/// How such a run ends, and whether its text is whole.
fn run_links<R: Threads + Wait + Sync>(rt: &R, alloc: Global) -> Option<(Ended, bool)> {
    let mut out = VecSink::new(alloc, ROOM, Vec::new(alloc)).ok()?;
    let seen = over_links(rt, alloc, &mut out);
    let is_told = match seen {
        Some((_, taken)) => is_told(alloc, taken, out.written()),
        None => None,
    };
    drop(out);
    Some((seen?.0, is_told?))
}

#[test]
fn two_monitors_over_memory(rt: HostRuntime) -> Result<(), Fail> {
    let seen = run_links(&rt, rt.alloc());
    assert_eq!(rt; seen, Some((Ended::Done, true)));
    Ok(())
}

// The first byte is one of the length of a Hello, so who sends it is a stranger.
#[test]
fn a_net_that_does_not_listen_or_turns_the_first_byte_is_a_failed_link(
    rt: HostRuntime,
) -> Result<(), Fail> {
    let alloc = rt.alloc();
    let deaf = in_the_open(&rt, alloc, Case::TwoMonitors, 1, None);
    let turned = in_the_open(&rt, alloc, Case::TwoMonitors, MOST, Some(0));
    let failed = Some((Ended::LinkFault, true, false));
    assert_eq!(rt; (deaf, turned), (failed, failed));
    Ok(())
}

/// The first of 20 calls whose failure ends a run otherwise than as a failed link or too late.
fn odd_call<R: Threads + Wait + Sync>(rt: &R, alloc: Global) -> Option<u64> {
    for call in 1..21 {
        match in_the_open(rt, alloc, Case::TwoMonitors, call, None) {
            Some((Ended::LinkFault, _, _)) => {}
            Some((Ended::Done, _, _)) => {}
            _ => return Some(call),
        }
    }
    None
}

/// Behind the Hello of 18 bytes come the four of the length of the first Assign, its kind, its number, and its members.
const DOWN: [u64; 5] = [18, 22, 30, 34, 38];

/// Behind the 25 bytes of the Assign come the four of the length of the first Settled, its kind, its number, whether it is the
/// last, and how many places it has. With another number it is refused, and otherwise it is no frame.
const UP: [u64; 5] = [43, 47, 55, 56, 60];

/// Behind the 25 bytes of the Assign comes a Report of 81 bytes, or a Settled of 26 and the Report: whichever it is, these
/// are bytes of the Report's kind or number, or of how many objects failed, which one, or how many values it has.
const REPORT: [u64; 3] = [73, 76, 80];

/// Behind two Hellos, two Assigns, a Report of 81 bytes and a Collect of 25, and perhaps a Settled of 22 of one monitor or of
/// both, come the 81 bytes of Values: whichever it is, these are bytes of its number, its count, or an object's number.
const VALUES: [u64; 3] = [253, 254, 255];

/// The first of these bytes that ends a run otherwise than so, once it is turned, or, of one monitor that has nothing to
/// report, with something written.
fn odd_byte<R: Threads + Wait + Sync>(
    rt: &R,
    alloc: Global,
    case: Case,
    bytes: &[u64],
    ended: Ended,
) -> Option<u64> {
    let writes = !matches!(case, Case::OneMonitor);
    for byte in bytes {
        match in_the_open(rt, alloc, case, MOST, Some(*byte)) {
            Some((end, is_empty, _)) if end == ended && (is_empty || writes) => {}
            _ => return Some(*byte),
        }
    }
    None
}

#[test]
fn a_call_that_fails_is_a_failed_link_or_too_late(rt: HostRuntime) -> Result<(), Fail> {
    assert_eq!(rt; odd_call(&rt, rt.alloc()), None);
    Ok(())
}

#[test]
fn a_turned_byte_of_a_frame_is_a_difference(rt: HostRuntime) -> Result<(), Fail> {
    let alloc = rt.alloc();
    let settled = Ended::UpDiffers(Kind::Settled);
    let down = odd_byte(
        &rt,
        alloc,
        Case::OneMonitor,
        &DOWN,
        Ended::DownDiffers(Kind::Assign),
    );
    let up = odd_byte(&rt, alloc, Case::OneMonitor, &UP, settled);
    assert_eq!(rt; (down, up), (None, None));
    Ok(())
}

#[test]
fn a_turned_byte_of_a_report_or_of_values_is_a_difference(rt: HostRuntime) -> Result<(), Fail> {
    let alloc = rt.alloc();
    let reported = Ended::UpDiffers(Kind::Report);
    let report = odd_byte(&rt, alloc, Case::OneReport, &REPORT, reported);
    let answered = Ended::UpDiffers(Kind::Values);
    let values = odd_byte(&rt, alloc, Case::OneRound, &VALUES, answered);
    assert_eq!(rt; (report, values), (None, None));
    Ok(())
}

// Two draws of 64 bits are the same once in some 10^19 runs.
#[test]
fn two_runs_have_two_numbers(rt: HostRuntime) -> Result<(), Fail> {
    let (one, another) = (run_number(&rt), run_number(&rt));
    assert!(rt; one != another);
    Ok(())
}

/// How a run ends whose first put fails, and how many puts failed.
fn unwritten<R: Threads + Wait + Sync>(rt: &R, alloc: Global) -> Option<(Ended, u64)> {
    let fails = Vec::from_slice(alloc, &[1]).ok()?;
    let mut out = VecSink::new(alloc, ROOM, fails).ok()?;
    let gate = Meeting::open();
    let ended = over_memory(rt, alloc, Case::OneMonitor, MOST, None, &gate, &mut out);
    let faults = out.faults();
    drop(out);
    Some((ended?, faults))
}

#[test]
fn a_failing_output_ends_a_live_run(rt: HostRuntime) -> Result<(), Fail> {
    assert_eq!(rt; unwritten(&rt, rt.alloc()), Some((Ended::WriteFault, 1)));
    Ok(())
}

/// Whether words that name these files are done over a net.
fn is_done<R: Threads + Wait + Sync>(
    rt: &R,
    alloc: Global,
    words: &[String],
    files: &mut MapFiles,
    net: &mut MemNet,
    out: &mut VecSink,
) -> bool
    requires listens { net.old.state.listens ≡ false }
    requires links { net.old.state.links ≡ 0 }
{
    let status = live(rt, alloc, words, files, net, 5, &Meeting::open(), out).into_status();
    let is_done = matches!(&status, Status::Done);
    drop(status);
    is_done
}

/// Whether the words of two monitors are done over links in memory.
fn are_done<R: Threads + Wait + Sync>(rt: &R, alloc: Global, out: &mut VecSink) -> Option<bool> {
    let mut net = memory(alloc, MOST, None)?;
    let Some(words) = words(alloc) else {
        drop(net);
        return None;
    };
    let Some(mut files) = files(alloc) else {
        drop(net);
        drop(words);
        return None;
    };
    let are_done = is_done(rt, alloc, words.as_slice(), &mut files, &mut net, out);
    drop(net);
    drop(words);
    drop(files);
    Some(are_done)
}

/// The same, and whether the last set is a over the whole logs.
fn run_words<R: Threads + Wait + Sync>(rt: &R, alloc: Global) -> Option<(bool, bool)> {
    let mut out = VecSink::new(alloc, ROOM, Vec::new(alloc)).ok()?;
    let are_done = are_done(rt, alloc, &mut out);
    let is_told = has(out.written(), b" cut 1:1 2:1 members a\n");
    drop(out);
    Some((are_done?, is_told))
}

#[test]
fn words_and_files_are_run_over_memory(rt: HostRuntime) -> Result<(), Fail> {
    assert_eq!(rt; run_words(&rt, rt.alloc()), Some((true, true)));
    Ok(())
}
