//! A frame at the end of some bytes.

ghost use Rattle.std.specs.Prelude.{◌≡◌, ◌↔◌, ◌≤◌, ◌+◌, ◌∷◌, ◌++◌, ℕ, length, take, drop, IfErr, IsErrOf, IsTrue, OnOk, OnErr};
ghost use Rattle.byteorder.specs.Endian.{big_bytes};
ghost use Rattle.tk_base.specs.History.{IsFront};
ghost use Rattle.tk_frames.specs.declared.fault.EncodeFault.TheVariants as faults;
ghost use Rattle.tk_frames.specs.Spelling.{IsVersion, fields as fields_of, payload as payload_of};
ghost use Rattle.tk_frames.specs.Size.{IsShort};
ghost use Rattle.tk_frames.specs.Encoding.{Appends, IsBadHello, Refuses, AreWithin};

use crate::decoder::{MAX_MONITOR, MAX_PAYLOAD};
use crate::fault::EncodeFault;
use crate::frame::Frame;
use crate::writing::{flag, number_u8, number_u32, number_u64, pairs, places, set, signed_i128};
use tk_base::NoMemory;

fn is_bad_hello(frame: &Frame) -> bool
    ensures { IsTrue result ↔ IsBadHello frame.now }
{
    match frame {
        Frame::Hello { version, mon, .. } => {
            *version == 0 || *version > 2 || mon.0 == 0 || mon.0 > MAX_MONITOR
        }
        _ => false,
    }
}

#[tactic(auto, using(crate::proofs::FrontLemmas::front_steps))]
fn fields(out: &mut Vec<u8>, version: u8, frame: &Frame) -> Result<(), NoMemory>
    ensures bytes { OnOk result (out.new.items ≡ out.old.items ++ fields_of version frame.now) }
    ensures front { IsFront out.old.items out.new.items }
    ensures within { OnOk result (AreWithin frame.now) }
{
    match frame {
        Frame::Hello {
            run,
            version: speaks,
            mon,
        } => {
            number_u64(out, 1, *run)?;
            number_u8(out, *speaks)?;
            number_u32(out, 1, mon.0)
        }
        Frame::Report {
            seq,
            border,
            failed,
            values,
        } => {
            number_u64(out, version, *seq)?;
            signed_i128(out, version, *border)?;
            set(out, version, failed)?;
            pairs(out, version, values)
        }
        Frame::Collect { round, objects } => {
            number_u64(out, version, *round)?;
            set(out, version, objects)
        }
        Frame::Values {
            round,
            seq,
            border,
            values,
        } => {
            number_u64(out, version, *round)?;
            number_u64(out, version, *seq)?;
            signed_i128(out, version, *border)?;
            pairs(out, version, values)
        }
        Frame::Assign {
            seq,
            members,
            changes,
        } => {
            number_u64(out, version, *seq)?;
            set(out, version, members)?;
            pairs(out, version, changes)
        }
        Frame::Settled {
            seq,
            last,
            places: reached,
        } => {
            number_u64(out, version, *seq)?;
            flag(out, *last)?;
            places(out, version, reached)
        }
        Frame::Stop => Ok(()),
    }
}

/// Appends a payload behind four bytes for its length.
#[tactic(auto, using(crate::proofs::FrontLemmas::front_steps))]
fn payload(out: &mut Vec<u8>, version: u8, frame: &Frame) -> Result<(), NoMemory>
    ensures bytes { OnOk result (out.new.items ≡ out.old.items ++ (0 ∷ 0 ∷ 0 ∷ 0 ∷ payload_of version frame.now)) }
    ensures within { OnOk result (AreWithin frame.now) }
    ensures front { IsFront out.old.items out.new.items }
{
    // What the frame takes in version 1; the other takes less for most.
    let room = frame.size().min(4 + MAX_PAYLOAD as u128) as usize;
    out.reserve(room)?;
    out.extend_from_slice(&[0, 0, 0, 0, frame.kind().code()])?;
    fields(out, version, frame)
}

/// Writes a length over the four bytes at a place.
fn put_length(bytes: &mut [u8], start: usize, size: u32)
    requires { start + 4 ≤ length bytes.old }
    ensures { bytes.new ≡ take start bytes.old ++ (big_bytes 4 size ++ drop (start + 4) bytes.old) }
{
    bytes[start..start + 4].copy_from_slice(&size.to_be_bytes());
}

/// Appends a frame, or a part of one behind what was there.
#[tactic(auto, using(crate::proofs::FrontLemmas::front_steps))]
fn append(frame: &Frame, version: u8, out: &mut Vec<u8>) -> Result<(), EncodeFault>
    requires version { IsVersion version }
    requires hello { IsBadHello frame.now → ⊥ }
    ensures ok { OnOk result (Appends version frame.now out.old.items out.new.items) }
    ensures front { IsFront out.old.items out.new.items }
    ensures refused { IfErr result (Refuses version frame.now) }
    ensures short { IsShort frame.now → (size : ℕ) → IsErrOf result (faults.TooLong size) → ⊥ }
{
    let start = out.len();
    payload(out, version, frame)?;
    let length = out.len() - start - 4;
    if length > MAX_PAYLOAD {
        let length = length as u64;
        return Err(EncodeFault::TooLong { length });
    }
    put_length(out, start, length as u32);
    Ok(())
}

/// Writes the frame's bytes in this version, 1 or 2, at the end. A Hello is looked at first, then the length.
pub fn encode(frame: &Frame, version: u8, out: &mut Vec<u8>) -> Result<(), EncodeFault>
    requires version { IsVersion version }
    // What is written is the frame's spelling.
    ensures ok { OnOk result (Appends version frame.now out.old.items out.new.items) }
    // An error leaves the bytes as they were, and comes only where it says.
    ensures err { OnErr result (out.new.items ≡ out.old.items) }
    ensures refused { IfErr result (Refuses version frame.now) }
    ensures hello { IsErrOf result faults.BadHello ↔ IsBadHello frame.now }
    ensures short { IsShort frame.now → (size : ℕ) → IsErrOf result (faults.TooLong size) → ⊥ }
{
    if is_bad_hello(frame) {
        return Err(EncodeFault::BadHello);
    }
    let start = out.len();
    let written = append(frame, version, out);
    if written.is_err() {
        out.truncate(start);
    }
    written
}
