//! Single fields, written at the end of some bytes.

ghost use Rattle.std.specs.Prelude.{◌≡◌, ◌<◌, ◌≤◌, ◌≤ℤ◌, ◌^◌, ◌++◌, pos, length, unsigned_abs, All, FitsSigned, OnOk};
ghost use Rattle.std.specs.Int.{w128};
ghost use Rattle.std.specs.List.{flat_map};
ghost use Rattle.tk_frames.specs.Encoding.{IsBadHello};
ghost use Rattle.tk_frames.specs.Size.{IsShort};
ghost use Rattle.tk_frames.specs.Spelling.{ArePlaces, IsSet, flag as flag_of, places as places_of, set as set_of, signed, spelling};
ghost use Rattle.tk_trace.specs.Spelling.{IsEpsilon, IsFrame, bounds as bounds_of, number};

use tk_base::{NoMemory, ObjSet, Places};
use tk_frames::{EncodeFault, Frame, encode};

/// One byte.
#[tactic(auto, unfolding(crate::specs::Spelling::number))]
pub fn number_u8(out: &mut Vec<u8>, value: u8) -> Result<(), NoMemory>
    ensures bytes { OnOk result (out.new.items ≡ out.old.items ++ number 1 value) }
    ensures within { value < 256 }
{
    out.push(value)?;
    Ok(())
}

/// A number in four bytes, big-endian.
#[tactic(auto, unfolding(crate::specs::Spelling::number))]
pub fn number_u32(out: &mut Vec<u8>, value: u32) -> Result<(), NoMemory>
    ensures bytes { OnOk result (out.new.items ≡ out.old.items ++ number 4 value) }
    ensures within { value < 2 ^ 32 }
{
    out.extend_from_slice(&value.to_be_bytes())?;
    Ok(())
}

/// A number in eight bytes, big-endian.
#[tactic(auto, unfolding(crate::specs::Spelling::number))]
pub fn number_u64(out: &mut Vec<u8>, value: u64) -> Result<(), NoMemory>
    ensures bytes { OnOk result (out.new.items ≡ out.old.items ++ number 8 value) }
    ensures within { value < 2 ^ 64 }
{
    out.extend_from_slice(&value.to_be_bytes())?;
    Ok(())
}

/// A number in sixteen bytes, big-endian.
#[tactic(auto, unfolding(crate::specs::Spelling::number))]
pub fn number_u128(out: &mut Vec<u8>, value: u128) -> Result<(), NoMemory>
    ensures { OnOk result (out.new.items ≡ out.old.items ++ number 16 value) }
{
    out.extend_from_slice(&value.to_be_bytes())?;
    Ok(())
}

/// A signed number in sixteen bytes, in two's complement.
pub fn signed_i128(out: &mut Vec<u8>, value: i128) -> Result<(), NoMemory>
    ensures { OnOk result (out.new.items ≡ out.old.items ++ signed 1 value) }
{
    number_u128(out, value.cast_unsigned())
}

/// One byte, 0 or 1.
pub fn flag(out: &mut Vec<u8>, value: bool) -> Result<(), NoMemory>
    ensures { OnOk result (out.new.items ≡ out.old.items ++ flag_of value) }
{
    out.push(if value { 1 } else { 0 })?;
    Ok(())
}

/// The number of a list's items.
pub fn count(out: &mut Vec<u8>, value: usize) -> Result<(), NoMemory>
    requires { value < 2 ^ 32 }
    ensures { OnOk result (out.new.items ≡ out.old.items ++ number 4 value) }
{
    number_u32(out, value as u32)
}

/// The bounds of a query: k, then epsilon.
pub fn bounds(out: &mut Vec<u8>, k: u32, epsilon: i128) -> Result<(), NoMemory>
    requires { pos 0 ≤ℤ epsilon }
    ensures bytes { OnOk result (out.new.items ≡ out.old.items ++ bounds_of k epsilon) }
    ensures k { k < 2 ^ 32 }
    ensures epsilon { IsEpsilon epsilon }
{
    number_u32(out, k)?;
    number_u128(out, epsilon.unsigned_abs())
}

fn set_items(out: &mut Vec<u8>, set: &ObjSet) -> Result<(), NoMemory>
    ensures bytes { OnOk result (out.new.items ≡ out.old.items ++ flat_map (number 4) set.now) }
    ensures within { OnOk result (All (λ o. o < 2 ^ 32) set.now) }
{
    for i in 0..set.len() {
        number_u32(out, set.at(i).0)?;
    }
    Ok(())
}

/// A set: the number of its objects, then each, ascending.
pub fn set(out: &mut Vec<u8>, set: &ObjSet) -> Result<(), NoMemory>
    requires { length set.now < 2 ^ 32 }
    ensures bytes { OnOk result (out.new.items ≡ out.old.items ++ set_of 1 set.now) }
    ensures within { OnOk result (IsSet set.now) }
{
    count(out, set.len())?;
    set_items(out, set)
}

fn places_items(out: &mut Vec<u8>, places: &Places) -> Result<(), NoMemory>
    ensures bytes { OnOk result (out.new.items ≡ out.old.items ++ flat_map (number 4) places.now) }
    ensures within { OnOk result (All (λ p. p < 2 ^ 32) places.now) }
{
    for i in 0..places.len() {
        number_u32(out, places.at(i))?;
    }
    Ok(())
}

/// The places in the logs of a monitor: their number, then each.
pub fn places(out: &mut Vec<u8>, places: &Places) -> Result<(), NoMemory>
    requires { length places.now < 2 ^ 32 }
    ensures bytes { OnOk result (out.new.items ≡ out.old.items ++ places_of 1 places.now) }
    ensures within { OnOk result (ArePlaces places.now) }
{
    count(out, places.len())?;
    places_items(out, places)
}

/// Appends a frame.
pub fn frame(out: &mut Vec<u8>, frame: &Frame) -> Result<(), NoMemory>
    requires short { IsShort frame.now }
    requires hello { IsBadHello frame.now → ⊥ }
    ensures bytes { OnOk result (out.new.items ≡ out.old.items ++ spelling 1 frame.now) }
    ensures within { OnOk result (IsFrame frame.now) }
{
    match encode(frame, 1, out) {
        Ok(()) => Ok(()),
        Err(EncodeFault::NoMemory) => Err(NoMemory),
        Err(EncodeFault::BadHello) => unreachable!(),
        Err(EncodeFault::TooLong { .. }) => unreachable!(),
    }
}
