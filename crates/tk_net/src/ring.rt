ghost use Rattle.std.specs.Prelude.{◌≡◌, ◌+◌, ◌<◌, ◌≤◌, [], ◌++◌, None, length, IfOk, IfSome};
ghost use Rattle.rtrb.specs.Ring.{IsPair, sent, received, known_free};
ghost use Rattle.tk_wire.specs.Meanings.{FitsSlice, FitsBytes};
ghost use Rattle.tk_net.specs.Memory.{DoesTake, DoesGive, GoesOn, got, given, turned};
ghost use Rattle.tk_net.specs.Rings.{HasRoom};

use crate::plan::Plan;
use rtrb::{Consumer, Producer, RingBuffer};
use std::alloc::Global;
use tk_base::NoMemory;
use tk_wire::{Gave, Took};

/// How many bytes are on their way in one direction at most.
const ROOM: usize = 65_536;

/// What one end of a connection holds of its two rings.
#[derive(Drop)]
pub(crate) struct RingEnds {
    pub(crate) outbox: Producer<u8>,
    pub(crate) inbox: Consumer<u8>,
}

/// Both ends of a connection: what the one gives, the other takes.
pub(crate) fn joined(alloc: Global) -> Result<(RingEnds, RingEnds), NoMemory>
    ensures up { IfOk result (λ ends. IsPair ends.0.outbox ends.1.inbox) }
    ensures down { IfOk result (λ ends. IsPair ends.1.outbox ends.0.inbox) }
    ensures room { IfOk result (λ ends. HasRoom ends.0 × HasRoom ends.1) }
{
    let (up, from_below) = RingBuffer::new(alloc, ROOM)?;
    let (down, from_above) = RingBuffer::new(alloc, ROOM)?;
    let ours = RingEnds {
        outbox: up,
        inbox: from_above,
    };
    let theirs = RingEnds {
        outbox: down,
        inbox: from_below,
    };
    Ok((ours, theirs))
}

// Pushes bytes for which there is room.
fn push(out: &mut Producer<u8>, bytes: &[u8])
    requires { length bytes.now ≤ known_free out.old }
    ensures sent { sent out.new ≡ sent out.old ++ bytes.now }
    ensures room { known_free out.old ≤ known_free out.new + length bytes.now }
{
    let Ok(()) = out.push_entire_slice(bytes) else {
        unreachable!();
    };
}

// Pushes bytes for which there is room, one of which may be turned.
fn push_turned(out: &mut Producer<u8>, bytes: &[u8], place: Option<usize>)
    requires room { length bytes.now ≤ known_free out.old }
    requires place { IfSome place (λ i. i < length bytes.now) }
    ensures { sent out.new ≡ sent out.old ++ turned place bytes.now }
{
    let Some(place) = place else {
        push(out, bytes);
        return;
    };
    push(out, &bytes[..place]);
    out.push_reserved(255 - bytes[place]);
    push(out, &bytes[place + 1..]);
}

/// Gives as many bytes to a ring as it has room for.
pub(crate) fn give(plan: &Plan, out: &mut Producer<u8>, bytes: &[u8]) -> Gave
    requires { 0 < length bytes.now }
    ensures fits { FitsBytes result (length bytes.now) }
    ensures quiet { plan.now.fails ≡ [] → DoesGive result }
    ensures sent { plan.now.flip ≡ None → sent out.new ≡ sent out.old ++ given result bytes.now }
    ensures turned { GoesOn result bytes.now (sent out.old) (sent out.new) }
{
    if plan.refuses() {
        return Gave::Failed;
    }
    let count = bytes.len().min(out.slots());
    if count == 0 {
        return Gave::NotYet;
    }
    push_turned(out, &bytes[..count], plan.give(count));
    Gave::Bytes(count)
}

/// Takes as many bytes from a ring as there are and as fit.
pub(crate) fn take(plan: &Plan, inbox: &mut Consumer<u8>, into: &mut [u8]) -> Took
    requires { 0 < length into.old }
    ensures fits { FitsSlice result (length into.old) }
    ensures quiet { plan.now.fails ≡ [] → DoesTake result }
    ensures received { received inbox.new ≡ received inbox.old ++ got result into.new }
{
    if plan.refuses() {
        return Took::Failed;
    }
    // Asked before the pop: where no producer is left, what it pushed last stands in the ring by now.
    let over = inbox.is_abandoned();
    let count = inbox.pop_partial_slice(into);
    if count > 0 {
        Took::Bytes(count)
    } else if over {
        Took::End
    } else {
        Took::NotYet
    }
}
