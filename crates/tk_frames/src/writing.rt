//! Each field of a frame, written at the end of some bytes.

ghost use Rattle.std.specs.Prelude.{◌≡◌, ◌<◌, ◌≤◌, ◌^◌, ◌++◌, FitsSigned, OnOk};
ghost use Rattle.std.specs.Int.{w128};
ghost use Rattle.tk_base.specs.History.{IsFront};
ghost use Rattle.tk_frames.specs.Spelling.{groups, number, zigzag, signed, object, pair, place, flag as flag_of, set as set_of, pairs as pairs_of, places as places_of, EachInTurn, Above, PairAbove, IsPlace, object_itself, pair_object, no_object};

use byteorder::{BigEndian, ByteOrder};
use tk_base::{NoMemory, ObjSet, Pairs, Places};

/// The fewest groups of seven bits, least first.
#[tactic(auto, using(crate::proofs::FrontLemmas::front_steps))]
fn groups(out: &mut Vec<u8>, value: u128) -> Result<(), NoMemory>
    ensures bytes { OnOk result (out.new.items ≡ out.old.items ++ groups value) }
    ensures front { IsFront out.old.items out.new.items }
{
    let mut rest = value;
    while rest >= 128 {
        out.push(128 + (rest % 128) as u8)?;
        rest /= 128;
    }
    out.push(rest as u8)?;
    Ok(())
}

/// Appends a byte.
#[tactic(auto, using(crate::proofs::FrontLemmas::front_steps), unfolding(crate::specs::Spelling::number))]
pub fn number_u8(out: &mut Vec<u8>, value: u8) -> Result<(), NoMemory>
    ensures bytes { OnOk result (out.new.items ≡ out.old.items ++ number 1 1 value) }
    ensures front { IsFront out.old.items out.new.items }
{
    out.push(value)?;
    Ok(())
}

/// Appends a number of 32 bits.
#[tactic(auto, using(crate::proofs::FrontLemmas::front_steps), unfolding(crate::specs::Spelling::number))]
pub fn number_u32(out: &mut Vec<u8>, version: u8, value: u32) -> Result<(), NoMemory>
    ensures bytes { OnOk result (out.new.items ≡ out.old.items ++ number version 4 value) }
    ensures front { IsFront out.old.items out.new.items }
    ensures within { value < 2 ^ 32 }
{
    if version == 1 {
        out.extend_from_slice(&value.to_be_bytes())?;
        return Ok(());
    }
    groups(out, value as u128)
}

/// Appends a number of 64 bits.
#[tactic(auto, using(crate::proofs::FrontLemmas::front_steps), unfolding(crate::specs::Spelling::number))]
pub fn number_u64(out: &mut Vec<u8>, version: u8, value: u64) -> Result<(), NoMemory>
    ensures bytes { OnOk result (out.new.items ≡ out.old.items ++ number version 8 value) }
    ensures front { IsFront out.old.items out.new.items }
    ensures within { value < 2 ^ 64 }
{
    if version == 1 {
        out.extend_from_slice(&value.to_be_bytes())?;
        return Ok(());
    }
    groups(out, value as u128)
}

#[tactic(auto, using(crate::proofs::FrontLemmas::front_steps), unfolding(crate::specs::Spelling::number))]
fn number_u128(out: &mut Vec<u8>, version: u8, value: u128) -> Result<(), NoMemory>
    ensures bytes { OnOk result (out.new.items ≡ out.old.items ++ number version 16 value) }
    ensures front { IsFront out.old.items out.new.items }
{
    if version == 1 {
        out.extend_from_slice(&value.to_be_bytes())?;
        return Ok(());
    }
    groups(out, value)
}

/// The number of a list's items, of which version 1 takes the low four bytes.
#[tactic(auto, using(crate::proofs::FrontLemmas::front_steps), unfolding(crate::specs::Spelling::number))]
fn count(out: &mut Vec<u8>, version: u8, value: usize) -> Result<(), NoMemory>
    ensures bytes { OnOk result (out.new.items ≡ out.old.items ++ number version 4 value) }
    ensures front { IsFront out.old.items out.new.items }
{
    if version == 1 {
        out.extend_from_slice(&(value as u64).to_be_bytes()[4..])?;
        return Ok(());
    }
    groups(out, value as u128)
}

fn zigzag(value: i128) -> u128
    ensures { result ≡ zigzag value }
{
    if value >= 0 {
        value.unsigned_abs() * 2
    } else {
        (value.unsigned_abs() - 1) * 2 + 1
    }
}

/// Appends a whole number of 128 bits.
#[tactic(auto, using(crate::proofs::FrontLemmas::front_steps), unfolding(crate::specs::Spelling::signed))]
pub fn signed_i128(out: &mut Vec<u8>, version: u8, value: i128) -> Result<(), NoMemory>
    ensures bytes { OnOk result (out.new.items ≡ out.old.items ++ signed version value) }
    ensures front { IsFront out.old.items out.new.items }
    ensures within { FitsSigned w128 value }
{
    if version == 1 {
        return number_u128(out, version, value.cast_unsigned());
    }
    number_u128(out, version, zigzag(value))
}

/// Appends one byte, 0 or 1.
#[tactic(auto, using(crate::proofs::FrontLemmas::front_steps))]
pub fn flag(out: &mut Vec<u8>, value: bool) -> Result<(), NoMemory>
    ensures bytes { OnOk result (out.new.items ≡ out.old.items ++ flag_of value) }
    ensures front { IsFront out.old.items out.new.items }
{
    out.push(if value { 1 } else { 0 })?;
    Ok(())
}

#[tactic(auto, using(crate::proofs::FrontLemmas::front_steps), unfolding(crate::specs::Spelling::object))]
fn object(out: &mut Vec<u8>, version: u8, before: u32, value: u32) -> Result<(), NoMemory>
    requires { before ≤ value }
    ensures bytes { OnOk result (out.new.items ≡ out.old.items ++ object version before value) }
    ensures front { IsFront out.old.items out.new.items }
    ensures within { value < 2 ^ 32 }
{
    if version == 1 {
        return number_u32(out, version, value);
    }
    number_u32(out, version, value - before)
}

/// A pair of version 1, so that it is appended at once.
#[tactic(auto, unfolding(crate::specs::Spelling::number, crate::specs::Spelling::signed))]
fn pair_bytes(value: u32, under: i128) -> [u8; 20]
    ensures { result ≡ number 1 4 value ++ signed 1 under }
{
    let mut bytes = [0; 20];
    BigEndian::write_u32(&mut bytes, value);
    BigEndian::write_u128(&mut bytes[4..], under.cast_unsigned());
    bytes
}

#[tactic(auto, using(crate::proofs::FrontLemmas::front_steps), unfolding(crate::specs::Spelling::object))]
fn pair(
    out: &mut Vec<u8>,
    version: u8,
    before: u32,
    value: u32,
    under: i128,
) -> Result<(), NoMemory>
    requires { before ≤ value }
    ensures bytes { OnOk result (out.new.items ≡ out.old.items ++ pair version before (value, under)) }
    ensures front { IsFront out.old.items out.new.items }
    ensures within { value < 2 ^ 32 }
    ensures under { FitsSigned w128 under }
{
    if version == 1 {
        out.extend_from_slice(&pair_bytes(value, under))?;
        return Ok(());
    }
    object(out, version, before, value)?;
    signed_i128(out, version, under)
}

/// Appends a set of objects.
#[tactic(auto, using(crate::proofs::FrontLemmas::front_steps), unfolding(crate::specs::Spelling::counted))]
pub fn set(out: &mut Vec<u8>, version: u8, set: &ObjSet) -> Result<(), NoMemory>
    ensures bytes { OnOk result (out.new.items ≡ out.old.items ++ set_of version set.now) }
    ensures front { IsFront out.old.items out.new.items }
    ensures objects { OnOk result (EachInTurn object_itself Above 0 set.now) }
{
    let len = set.len();
    count(out, version, len)?;
    let mut before = 0;
    for i in 0..len {
        let value = set.at(i).0;
        object(out, version, before, value)?;
        before = value;
    }
    Ok(())
}

/// Appends objects with their numbers.
#[tactic(auto, using(crate::proofs::FrontLemmas::front_steps), unfolding(crate::specs::Spelling::counted))]
pub fn pairs(out: &mut Vec<u8>, version: u8, pairs: &Pairs) -> Result<(), NoMemory>
    ensures bytes { OnOk result (out.new.items ≡ out.old.items ++ pairs_of version pairs.now) }
    ensures front { IsFront out.old.items out.new.items }
    ensures objects { OnOk result (EachInTurn pair_object PairAbove 0 pairs.now) }
{
    let len = pairs.len();
    count(out, version, len)?;
    let mut before = 0;
    for i in 0..len {
        let (value, under) = pairs.at(i);
        pair(out, version, before, value.0, under)?;
        before = value.0;
    }
    Ok(())
}

/// Appends places.
#[tactic(auto, using(crate::proofs::FrontLemmas::front_steps), unfolding(crate::specs::Spelling::counted))]
pub fn places(out: &mut Vec<u8>, version: u8, places: &Places) -> Result<(), NoMemory>
    ensures bytes { OnOk result (out.new.items ≡ out.old.items ++ places_of version places.now) }
    ensures front { IsFront out.old.items out.new.items }
    ensures numbers { OnOk result (EachInTurn no_object IsPlace 0 places.now) }
{
    let len = places.len();
    count(out, version, len)?;
    for i in 0..len {
        number_u32(out, version, places.at(i))?;
    }
    Ok(())
}
