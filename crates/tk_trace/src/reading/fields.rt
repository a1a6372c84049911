//! Single fields, read at the front of some bytes.

ghost use Rattle.tk_base.specs.Ascending.{numbers_of};
ghost use Rattle.tk_frames.specs.Reading.{items_at};
ghost use Rattle.tk_frames.specs.Spelling.{no_object, object_itself};
ghost use Rattle.tk_trace.specs.Reading.{Gives, epsilon_at, is_one_of, number_at, object_at, place_at, places_at, set_at, signed_at, tested_at};
ghost use Rattle.tk_frames.specs.Reading.{flag_at};

use crate::fault::ParseFault;
use byteorder::{BigEndian, ByteOrder};
use std::alloc::Global;
use tk_base::{Obj, ObjSet, Places};

/// One byte, and what is behind it.
pub fn byte(bytes: &[u8]) -> Result<(u8, &[u8]), ParseFault>
    ensures { Gives (λ x. (x.0, x.1.now)) result (number_at 1 bytes.now) }
{
    let [first, rest @ ..] = bytes else {
        return Err(ParseFault::NotATrace);
    };
    Ok((*first, rest))
}

/// A number in four bytes, big-endian.
pub fn u32_at(bytes: &[u8]) -> Result<(u32, &[u8]), ParseFault>
    ensures { Gives (λ x. (x.0, x.1.now)) result (number_at 4 bytes.now) }
{
    if bytes.len() < 4 {
        return Err(ParseFault::NotATrace);
    }
    Ok((BigEndian::read_u32(bytes), &bytes[4..]))
}

/// A number in eight bytes, big-endian.
pub fn u64_at(bytes: &[u8]) -> Result<(u64, &[u8]), ParseFault>
    ensures { Gives (λ x. (x.0, x.1.now)) result (number_at 8 bytes.now) }
{
    if bytes.len() < 8 {
        return Err(ParseFault::NotATrace);
    }
    Ok((BigEndian::read_u64(bytes), &bytes[8..]))
}

/// A number in sixteen bytes, big-endian.
pub fn u128_at(bytes: &[u8]) -> Result<(u128, &[u8]), ParseFault>
    ensures { Gives (λ x. (x.0, x.1.now)) result (number_at 16 bytes.now) }
{
    if bytes.len() < 16 {
        return Err(ParseFault::NotATrace);
    }
    Ok((BigEndian::read_u128(bytes), &bytes[16..]))
}

/// A signed number in sixteen bytes, in two's complement.
#[tactic(auto, unfolding(crate::specs::Reading::signed_at))]
pub fn i128_at(bytes: &[u8]) -> Result<(i128, &[u8]), ParseFault>
    ensures { Gives (λ x. (x.0, x.1.now)) result (signed_at bytes.now) }
{
    let (number, rest) = u128_at(bytes)?;
    Ok((number.cast_signed(), rest))
}

/// One byte, 0 or 1.
#[tactic(auto, unfolding(tk_frames::specs::Reading::flag_at))]
pub fn flag(bytes: &[u8]) -> Result<(bool, &[u8]), ParseFault>
    ensures { Gives (λ x. (x.0, x.1.now)) result (flag_at bytes.now) }
{
    match bytes {
        [0, rest @ ..] => Ok((false, rest)),
        [1, rest @ ..] => Ok((true, rest)),
        _ => Err(ParseFault::NotATrace),
    }
}

/// One of so many, in four bytes and from 1.
pub fn one_of(many: u32, bytes: &[u8]) -> Result<(u32, &[u8]), ParseFault>
    ensures { Gives (λ x. (x.0, x.1.now)) result (tested_at (is_one_of many) (number_at 4) bytes.now) }
{
    let (number, rest) = u32_at(bytes)?;
    if 0 < number && number <= many {
        Ok((number, rest))
    } else {
        Err(ParseFault::NotATrace)
    }
}

/// A number from 0 on that an epsilon can be.
#[tactic(auto, unfolding(crate::specs::Reading::epsilon_at))]
pub fn epsilon(bytes: &[u8]) -> Result<(i128, &[u8]), ParseFault>
    ensures { Gives (λ x. (x.0, x.1.now)) result (epsilon_at bytes.now) }
{
    let (number, rest) = u128_at(bytes)?;
    if number > i128::MAX as u128 {
        return Err(ParseFault::NotATrace);
    }
    Ok((number as i128, rest))
}

#[tactic(auto, unfolding(crate::specs::Reading::object_at))]
fn object(before: u32, bytes: &[u8]) -> Result<(u32, &[u8]), ParseFault>
    ensures { Gives (λ x. (x.0, x.1.now)) result (object_at before bytes.now) }
{
    let (object, rest) = u32_at(bytes)?;
    if object <= before {
        return Err(ParseFault::NotATrace);
    }
    Ok((object, rest))
}

fn objects(alloc: Global, count: u32, bytes: &[u8]) -> Result<(Vec<Obj>, &[u8]), ParseFault>
    ensures { Gives (λ x. (numbers_of x.0.items, x.1.now)) result (items_at object_itself object_at 0 count bytes.now) }
{
    let mut list = Vec::new(alloc);
    let mut rest = bytes;
    let mut before = 0;
    for _ in 0..count {
        let (number, after) = object(before, rest)?;
        list.push(Obj(number))?;
        before = number;
        rest = after;
    }
    Ok((list, rest))
}

fn numbers(alloc: Global, count: u32, bytes: &[u8]) -> Result<(Vec<u32>, &[u8]), ParseFault>
    ensures { Gives (λ x. (x.0.items, x.1.now)) result (items_at no_object place_at 0 count bytes.now) }
{
    let mut list = Vec::new(alloc);
    let mut rest = bytes;
    for _ in 0..count {
        let (number, after) = u32_at(rest)?;
        list.push(number)?;
        rest = after;
    }
    Ok((list, rest))
}

/// A set: the number of its objects, then each, ascending.
#[tactic(auto, unfolding(crate::specs::Reading::set_at))]
pub fn set(alloc: Global, bytes: &[u8]) -> Result<(ObjSet, &[u8]), ParseFault>
    ensures { Gives (λ x. (x.0, x.1.now)) result (set_at bytes.now) }
{
    let (count, rest) = u32_at(bytes)?;
    let (list, rest) = objects(alloc, count, rest)?;
    match ObjSet::new(list) {
        Ok(set) => Ok((set, rest)),
        Err(_) => Err(ParseFault::NotATrace),
    }
}

/// The places in the logs of a monitor: their number, then each.
#[tactic(auto, unfolding(crate::specs::Reading::places_at))]
pub fn places(alloc: Global, bytes: &[u8]) -> Result<(Places, &[u8]), ParseFault>
    ensures { Gives (λ x. (x.0, x.1.now)) result (places_at bytes.now) }
{
    let (count, rest) = u32_at(bytes)?;
    let (list, rest) = numbers(alloc, count, rest)?;
    Ok((Places::new(list), rest))
}
