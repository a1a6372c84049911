//! The lines of one connection, put into the sink one by one.

ghost use Rattle.std.specs.Prelude.{◌≡◌, IfErr, IfOk, OnOk};
ghost use Rattle.tk_input.specs.Sink.{Grows};
ghost use Rattle.tk_watch.specs.Connections.{ended_text, joined_text, left_text, tick_text};
ghost use Rattle.tk_watch.specs.Passing.{Stops, faults_stopped};

use crate::cause::Cause;
use crate::lines::{ended_line, joined_line, left_line, tick_line};
use crate::tick_end::TickEnd;
use crate::verdict::Verdict;
use std::alloc::Global;
use tk_base::NoMemory;
use tk_input::{PutFailed, Sink};

/// Writes a line.
fn put_line<O: Sink>(line: Vec<u8>, out: &mut O) -> Result<(), Verdict>
    ensures ok { OnOk result (Grows (O.written out.old) (O.written out.new) line.items) }
    ensures err { IfErr result (λ v. Stops v (O.written out.old) (O.written out.new) line.items) }
    ensures counted { O.fault_count out.new ≡ faults_stopped result (O.fault_count out.old) }
{
    let put = out.put(line.as_slice());
    drop(line);
    match put {
        Ok(()) => Ok(()),
        Err(PutFailed) => Err(Verdict::WriteFault),
    }
}

/// Writes the line of a connection that was made.
pub(crate) fn tell_joined<O: Sink>(
    alloc: Global,
    number: u64,
    counts: &[u64],
    out: &mut O,
) -> Result<(), Verdict>
    ensures ok { OnOk result (Grows (O.written out.old) (O.written out.new) (joined_text number counts.now)) }
    ensures err { IfErr result (λ v. Stops v (O.written out.old) (O.written out.new) (joined_text number counts.now)) }
    ensures counted { O.fault_count out.new ≡ faults_stopped result (O.fault_count out.old) }
{
    match joined_line(alloc, number, counts) {
        Ok(line) => put_line(line, out),
        Err(NoMemory) => Err(Verdict::NoMemory),
    }
}

/// Writes the line of the last ends of ticks.
pub(crate) fn tell_tick<O: Sink>(alloc: Global, end: &TickEnd, out: &mut O) -> Result<(), Verdict>
    ensures ok { OnOk result (Grows (O.written out.old) (O.written out.new) (tick_text end.now)) }
    ensures err { IfErr result (λ v. Stops v (O.written out.old) (O.written out.new) (tick_text end.now)) }
    ensures counted { O.fault_count out.new ≡ faults_stopped result (O.fault_count out.old) }
{
    match tick_line(alloc, end) {
        Ok(line) => put_line(line, out),
        Err(NoMemory) => Err(Verdict::NoMemory),
    }
}

/// Writes the line of a connection that was left.
pub(crate) fn tell_left<O: Sink>(
    alloc: Global,
    number: u64,
    cause: Cause,
    out: &mut O,
) -> Result<(), Verdict>
    ensures ok { OnOk result (Grows (O.written out.old) (O.written out.new) (left_text number cause)) }
    ensures err { IfErr result (λ v. Stops v (O.written out.old) (O.written out.new) (left_text number cause)) }
    ensures counted { O.fault_count out.new ≡ faults_stopped result (O.fault_count out.old) }
{
    match left_line(alloc, number, cause) {
        Ok(line) => put_line(line, out),
        Err(NoMemory) => Err(Verdict::NoMemory),
    }
}

/// Writes the last line, of a monitor that took Stop.
pub(crate) fn tell_ended<O: Sink>(
    alloc: Global,
    counts: &[u64],
    skipped: u64,
    out: &mut O,
) -> Result<(), Verdict>
    ensures ok { OnOk result (Grows (O.written out.old) (O.written out.new) (ended_text counts.now skipped)) }
    ensures err { IfErr result (λ v. Stops v (O.written out.old) (O.written out.new) (ended_text counts.now skipped)) }
    ensures counted { O.fault_count out.new ≡ faults_stopped result (O.fault_count out.old) }
{
    match ended_line(alloc, counts, skipped) {
        Ok(line) => put_line(line, out),
        Err(NoMemory) => Err(Verdict::NoMemory),
    }
}
