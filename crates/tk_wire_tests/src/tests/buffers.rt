//! What buffers make of frames that come or go in pieces, in both versions, and over wires that fail.

ghost use Rattle.std.specs.Prelude.{◌≤◌};

use std::alloc::Global;
use std::test::Fail;
use tk_base::{Mon, Places};
use tk_frames::{Frame, Next};
use tk_wire::{InBuffer, OutBuffer, Pipe, PipeWire, Piped, Pulled, Pushed};

const SETTLED: [u8; 22] = [
    0, 0, 0, 18, 6, 0, 0, 0, 0, 0, 0, 0, 1, 0, 0, 0, 0, 1, 0, 0, 0, 0,
];

const STOP: [u8; 5] = [0, 0, 0, 1, 7];

/// A Hello of version 2, and a Settled in that version.
const GREETED: [u8; 27] = [
    0, 0, 0, 14, 1, 0, 0, 0, 0, 0, 0, 0, 5, 2, 0, 0, 0, 2, 0, 0, 0, 5, 6, 1, 0, 1, 0,
];

fn settled(alloc: Global) -> Result<Frame, Fail> {
    Ok(Frame::Settled {
        seq: 1,
        last: false,
        places: Places::new(vec![in alloc; 0]?),
    })
}

fn hello() -> Frame {
    Frame::Hello {
        run: 5,
        version: 2,
        mon: Mon(2),
    }
}

/// Whether this frame comes next out of a buffer, of so many bytes. Tests look at one frame at a time, since each place
/// that may drop several is dear to prove.
fn comes(buffer: &mut InBuffer, frame: &Frame, size: usize) -> bool {
    match buffer.frame() {
        Ok(Next::Whole(got, bytes)) => got == *frame && bytes == size,
        _ => false,
    }
}

/// Whether no whole frame is left in a buffer.
fn is_part(buffer: &mut InBuffer) -> bool {
    match buffer.frame() {
        Ok(Next::Part) => true,
        _ => false,
    }
}

/// Whether two frames and a half that come over a wire come out of a buffer.
fn are_pulled(wire: &mut PipeWire, pipe: &mut Pipe, buffer: &mut InBuffer, first: &Frame) -> bool {
    pipe.put(&SETTLED);
    pipe.put(&STOP);
    pipe.put(&SETTLED[..11]);
    for _ in 0..38u8 {
        wire.fill(pipe);
        if buffer.pull(wire) == Pulled::Failed {
            return false;
        }
    }
    comes(buffer, first, 22)
        && comes(buffer, &Frame::Stop, 5)
        && is_part(buffer)
        && buffer.bytes() == &SETTLED[..11]
}

/// Whether they do in pieces of so many bytes.
fn come_in(alloc: Global, piece: usize) -> Result<bool, Fail>
    requires { (1 ≤ piece) × (piece ≤ 65536) }
{
    let first = settled(alloc)?;
    let mut pipe = Pipe::new(alloc, 64)?;
    let mut wire = PipeWire::new(alloc, 64, piece, Vec::new(alloc))?;
    let mut buffer = InBuffer::new(alloc);
    Ok(are_pulled(&mut wire, &mut pipe, &mut buffer, &first))
}

#[test]
fn two_frames_and_a_half_in_any_pieces(rt: HostRuntime) -> Result<(), Fail> {
    let alloc = rt.alloc();
    let answers = (
        come_in(alloc, 1)?,
        come_in(alloc, 7)?,
        come_in(alloc, 4_096)?,
    );
    assert_eq!(rt; answers, (true, true, true));
    Ok(())
}

/// Adds a Hello of version 2 and a frame behind it; answers whether the bytes are these.
fn are_added(output: &mut OutBuffer, frame: &Frame, bytes: &[u8]) -> bool {
    if output.add(&hello()).is_err() {
        return false;
    }
    output.set_version(2);
    output.add(frame).is_ok() && output.bytes() == bytes
}

/// What comes of two pushes over a wire, and of a drain behind each.
fn pushed(
    output: &mut OutBuffer,
    near: &mut PipeWire,
    pipe: &mut Pipe,
) -> ([Pushed; 2], [usize; 2]) {
    let first = (output.push(near), near.drain(pipe));
    let second = (output.push(near), near.drain(pipe));
    ([first.0, second.0], [first.1, second.1])
}

/// Gives a Hello of version 2 and a Settled over a wire with room for 20 bytes, and answers what comes of it.
fn given(
    alloc: Global,
    pipe: &mut Pipe,
    settled: &Frame,
) -> Result<(bool, ([Pushed; 2], [usize; 2])), Fail> {
    let mut near = PipeWire::new(alloc, 20, 64, Vec::new(alloc))?;
    let mut output = OutBuffer::new(alloc);
    let is_written = are_added(&mut output, settled, &GREETED);
    Ok((is_written, pushed(&mut output, &mut near, pipe)))
}

/// Whether a Hello, then a frame in version 2, and then the end come over a wire.
fn hears(far: &mut PipeWire, pipe: &mut Pipe, input: &mut InBuffer, frame: &Frame) -> bool {
    far.fill(pipe);
    far.close();
    let pulled = [input.pull(far), input.pull(far)];
    let is_greeted = comes(input, &hello(), 18);
    input.set_version(2);
    pulled == [Pulled::Got(27), Pulled::End]
        && is_greeted
        && comes(input, frame, 9)
        && is_part(input)
}

/// Whether they come out of a pipe.
fn is_greeted(alloc: Global, pipe: &mut Pipe, settled: &Frame) -> Result<bool, Fail> {
    let mut far = PipeWire::new(alloc, 64, 64, Vec::new(alloc))?;
    let mut input = InBuffer::new(alloc);
    Ok(hears(&mut far, pipe, &mut input, settled))
}

/// What is given and what comes of it.
fn exchanged(alloc: Global) -> Result<(bool, ([Pushed; 2], [usize; 2]), bool), Fail> {
    let settled = settled(alloc)?;
    let mut pipe = Pipe::new(alloc, 64)?;
    let (is_written, pushed) = given(alloc, &mut pipe, &settled)?;
    Ok((is_written, pushed, is_greeted(alloc, &mut pipe, &settled)?))
}

#[test]
fn version_2_begins_behind_a_hello(rt: HostRuntime) -> Result<(), Fail> {
    let (is_written, pushed, is_greeted) = exchanged(rt.alloc())?;
    assert_eq!(rt; pushed, ([Pushed::NotYet, Pushed::Empty], [20, 7]));
    assert_eq!(rt; (is_written, is_greeted), (true, true));
    Ok(())
}

/// What comes of a pull and a push of Stop over a wire whose first and third calls fail, and whether this is left.
fn failing(alloc: Global, left: &[u8]) -> Result<(Pulled, Pushed, bool), Fail> {
    let mut wire = PipeWire::new(alloc, 4, 4, vec![in alloc; 1, 3]?)?;
    let mut output = OutBuffer::new(alloc);
    output.add(&Frame::Stop)?;
    let pulled = InBuffer::new(alloc).pull(&mut wire);
    let pushed = output.push(&mut wire);
    Ok((pulled, pushed, output.bytes() == left))
}

#[test]
fn a_failed_call_is_handed_on(rt: HostRuntime) -> Result<(), Fail> {
    let answers = failing(rt.alloc(), &STOP[4..])?;
    assert_eq!(rt; answers, (Pulled::Failed, Pushed::Failed, true));
    Ok(())
}

/// What two pulls answer where 5,000 bytes wait.
fn pulled_twice(alloc: Global) -> Result<[Pulled; 2], Fail> {
    let mut pipe = Pipe::new(alloc, 5_000)?;
    let mut wire = PipeWire::new(alloc, 5_000, 5_000, Vec::new(alloc))?;
    pipe.put(&[0; 5_000]);
    wire.fill(&mut pipe);
    let mut buffer = InBuffer::new(alloc);
    Ok([buffer.pull(&mut wire), buffer.pull(&mut wire)])
}

#[test]
fn a_buffer_takes_few_bytes_at_once(rt: HostRuntime) -> Result<(), Fail> {
    let pulled = pulled_twice(rt.alloc())?;
    assert_eq!(rt; pulled, [Pulled::Got(4_096), Pulled::Got(904)]);
    Ok(())
}
