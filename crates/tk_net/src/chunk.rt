//! Chunks of bytes, as they go over a cable: how one is written, and what stands at the front of those that came.

ghost use Rattle.std.specs.Prelude.{◌≡◌, ◌+◌, ◌<◌, ◌≤◌, ◌++◌, ◌^◌, drop, length};
ghost use Rattle.tk_net.specs.Chunks.{IsThere, chunk_of, front_of as front};

use crate::check_sum::sum_of;
use byteorder::{BigEndian, ByteOrder};

/// How many bytes stand in front of those that a chunk holds: their number, and their check sum.
pub(crate) const HEAD: usize = 6;

/// A chunk that holds nothing.
pub(crate) const PULSE: [u8; 2] = [0, 0];

/// What stands at the front of bytes that came.
#[derive(Clone, Copy, Debug, PartialEq, Eq)]
pub(crate) enum Front {
    /// A part of a chunk, of which more is known with so many bytes.
    Part(usize),
    Pulse,
    /// A chunk that holds so many bytes.
    Chunk(usize),
    /// A chunk whose check sum is another.
    Bad,
}

/// Writes a chunk that holds these bytes.
#[tactic(auto, unfolding(crate::specs::Chunks::chunk_of))]
pub(crate) fn write_chunk(bytes: &[u8], into: &mut [u8])
    requires some { 0 < length bytes.now }
    requires few { length bytes.now < 2 ^ 16 }
    requires room { length bytes.now + 6 ≤ length into.old }
    ensures { into.new ≡ chunk_of bytes.now ++ drop (length bytes.now + 6) into.old }
{
    let size = bytes.len();
    BigEndian::write_u16(into, size as u16);
    BigEndian::write_u32(&mut into[2..], sum_of(bytes));
    into[HEAD..HEAD + size].copy_from_slice(bytes);
}

/// What stands at the front.
pub(crate) fn front_of(bytes: &[u8]) -> Front
    ensures value { result ≡ front bytes.now }
    ensures whole { IsThere result bytes.now }
{
    if bytes.len() < PULSE.len() {
        return Front::Part(PULSE.len());
    }
    let size = BigEndian::read_u16(bytes) as usize;
    if size == 0 {
        return Front::Pulse;
    }
    if bytes.len() < HEAD + size {
        return Front::Part(HEAD + size);
    }
    if sum_of(&bytes[HEAD..HEAD + size]) == BigEndian::read_u32(&bytes[2..]) {
        Front::Chunk(size)
    } else {
        Front::Bad
    }
}
