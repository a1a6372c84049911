//! The frame at the front of some bytes.

ghost use Rattle.std.specs.Prelude.{◌≡◌, ◌+◌, ◌≤◌, IfOk, IsSome, OnErr, drop, length, take};
ghost use Rattle.byteorder.specs.Endian.{big_number};
ghost use Rattle.tk_frames.specs.declared.answer.Next.{Next};
ghost use Rattle.tk_frames.specs.Spelling.{IsLength, IsVersion};
ghost use Rattle.tk_frames.specs.Answer.{Answers, HasKind};
ghost use Rattle.tk_frames.specs.Reading.{Gives, hello_at, report_at, collect_at, values_at, assign_at, settled_at, fields_at, kind_ahead, kind_at, next_of, payload_answer};

use crate::answer::{BadFrame, Next};
use crate::frame::Frame;
use crate::kind::Kind;
use crate::reading::{Unread, byte, flag, i128_at, pairs, places, set, u32_at, u64_at};
use byteorder::{BigEndian, ByteOrder};
use std::alloc::Global;
use tk_base::{Mon, NoMemory};

/// The most bytes of a payload.
pub const MAX_PAYLOAD: usize = 2_097_152;

/// The greatest number of a monitor.
pub const MAX_MONITOR: u32 = 64;

#[tactic(auto, unfolding(crate::specs::Reading::hello_at))]
fn hello(bytes: &[u8]) -> Result<(Frame, &[u8]), Unread>
    ensures { Gives (λ x. (x.0, x.1.now)) result (hello_at bytes.now) }
{
    let (run, rest) = u64_at(1, bytes)?;
    let (version, rest) = byte(rest)?;
    let (mon, rest) = u32_at(1, rest)?;
    if version == 0 || version > 2 || mon == 0 || mon > MAX_MONITOR {
        return Err(Unread::Malformed);
    }
    let mon = Mon(mon);
    Ok((Frame::Hello { run, version, mon }, rest))
}

#[tactic(auto, unfolding(crate::specs::Reading::report_at))]
fn report(alloc: Global, version: u8, bytes: &[u8]) -> Result<(Frame, &[u8]), Unread>
    ensures { Gives (λ x. (x.0, x.1.now)) result (report_at version bytes.now) }
{
    let (seq, rest) = u64_at(version, bytes)?;
    let (border, rest) = i128_at(version, rest)?;
    let (failed, rest) = set(alloc, version, rest)?;
    let (values, rest) = pairs(alloc, version, rest)?;
    let frame = Frame::Report {
        seq,
        border,
        failed,
        values,
    };
    Ok((frame, rest))
}

#[tactic(auto, unfolding(crate::specs::Reading::collect_at))]
fn collect(alloc: Global, version: u8, bytes: &[u8]) -> Result<(Frame, &[u8]), Unread>
    ensures { Gives (λ x. (x.0, x.1.now)) result (collect_at version bytes.now) }
{
    let (round, rest) = u64_at(version, bytes)?;
    let (objects, rest) = set(alloc, version, rest)?;
    Ok((Frame::Collect { round, objects }, rest))
}

#[tactic(auto, unfolding(crate::specs::Reading::values_at))]
fn values(alloc: Global, version: u8, bytes: &[u8]) -> Result<(Frame, &[u8]), Unread>
    ensures { Gives (λ x. (x.0, x.1.now)) result (values_at version bytes.now) }
{
    let (round, rest) = u64_at(version, bytes)?;
    let (seq, rest) = u64_at(version, rest)?;
    let (border, rest) = i128_at(version, rest)?;
    let (values, rest) = pairs(alloc, version, rest)?;
    let frame = Frame::Values {
        round,
        seq,
        border,
        values,
    };
    Ok((frame, rest))
}

#[tactic(auto, unfolding(crate::specs::Reading::assign_at))]
fn assign(alloc: Global, version: u8, bytes: &[u8]) -> Result<(Frame, &[u8]), Unread>
    ensures { Gives (λ x. (x.0, x.1.now)) result (assign_at version bytes.now) }
{
    let (seq, rest) = u64_at(version, bytes)?;
    let (members, rest) = set(alloc, version, rest)?;
    let (changes, rest) = pairs(alloc, version, rest)?;
    let frame = Frame::Assign {
        seq,
        members,
        changes,
    };
    Ok((frame, rest))
}

#[tactic(auto, unfolding(crate::specs::Reading::settled_at))]
fn settled(alloc: Global, version: u8, bytes: &[u8]) -> Result<(Frame, &[u8]), Unread>
    ensures { Gives (λ x. (x.0, x.1.now)) result (settled_at version bytes.now) }
{
    let (seq, rest) = u64_at(version, bytes)?;
    let (last, rest) = flag(rest)?;
    let (places, rest) = places(alloc, version, rest)?;
    Ok((Frame::Settled { seq, last, places }, rest))
}

#[tactic(auto, unfolding(crate::specs::Reading::fields_at))]
fn fields(alloc: Global, version: u8, kind: Kind, bytes: &[u8]) -> Result<(Frame, &[u8]), Unread>
    ensures { Gives (λ x. (x.0, x.1.now)) result (fields_at version kind bytes.now) }
{
    match kind {
        Kind::Hello => hello(bytes),
        Kind::Report => report(alloc, version, bytes),
        Kind::Collect => collect(alloc, version, bytes),
        Kind::Values => values(alloc, version, bytes),
        Kind::Assign => assign(alloc, version, bytes),
        Kind::Settled => settled(alloc, version, bytes),
        Kind::Stop => Ok((Frame::Stop, bytes)),
    }
}

#[tactic(auto, unfolding(crate::specs::Reading::kind_at))]
fn kind_of_byte(code: u8) -> Option<Kind>
    ensures { result ≡ kind_at code }
{
    match code {
        1 => Some(Kind::Hello),
        2 => Some(Kind::Report),
        3 => Some(Kind::Collect),
        4 => Some(Kind::Values),
        5 => Some(Kind::Assign),
        6 => Some(Kind::Settled),
        7 => Some(Kind::Stop),
        _ => None,
    }
}

#[tactic(auto, unfolding(crate::specs::Reading::payload_answer))]
fn answer(alloc: Global, version: u8, payload: &[u8]) -> Result<Next, NoMemory>
    ensures value { IfOk result (λ next. next ≡ payload_answer version payload.now) }
    ensures memory { OnErr result (IsSome (kind_ahead payload.now)) }
{
    let [code, rest @ ..] = payload else {
        return Ok(Next::Part);
    };
    let Some(kind) = kind_of_byte(*code) else {
        return Ok(Next::Bad(BadFrame::BadKind { kind: *code }));
    };
    match fields(alloc, version, kind, rest) {
        Ok((frame, [])) => Ok(Next::Whole(frame, payload.len() + 4)),
        Err(Unread::Memory) => Err(NoMemory),
        _ => Ok(Next::Bad(BadFrame::BadFields { kind })),
    }
}

#[tactic(auto, unfolding(crate::specs::Reading::next_of))]
fn read(alloc: Global, version: u8, bytes: &[u8]) -> Result<Next, NoMemory>
    ensures value { IfOk result (λ next. next ≡ next_of version bytes.now) }
    ensures length { OnErr result (IsLength (big_number 4 bytes.now)) }
    ensures whole { OnErr result (4 + big_number 4 bytes.now ≤ length bytes.now) }
    ensures kind { OnErr result (IsSome (kind_ahead (take (big_number 4 bytes.now) (drop 4 bytes.now)))) }
{
    if bytes.len() < 4 {
        return Ok(Next::Part);
    }
    let length = BigEndian::read_u32(bytes);
    let size = length as usize;
    if size == 0 || size > MAX_PAYLOAD {
        return Ok(Next::Bad(BadFrame::BadLength { length }));
    }
    if bytes.len() < 4 + size {
        return Ok(Next::Part);
    }
    answer(alloc, version, &bytes[4..4 + size])
}

/// Reads the frame at the front, in this version, 1 or 2. It takes time and memory in proportion to the bytes
/// of that frame, whatever counts they claim.
pub fn next(alloc: Global, bytes: &[u8], version: u8) -> Result<Next, NoMemory>
    requires version { IsVersion version }
    // What is answered stands at the front of the bytes.
    ensures answer { IfOk result (Answers version bytes.now) }
    // What stands there is answered, so each of the answers comes exactly where it says.
    ensures only { (next : Next) → Answers version bytes.now next → IfOk result (λ answer. answer ≡ next) }
    // A part of a frame, a bad length and a byte of no kind are told without memory.
    ensures memory { OnErr result (HasKind bytes.now) }
{
    read(alloc, version, bytes)
}
