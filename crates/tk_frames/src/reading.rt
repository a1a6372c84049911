//! Each field of a frame, read at the front of some bytes.

ghost use Rattle.std.specs.Prelude.{◌≡◌, ◌/◌, ◌<◌, ◌≤◌, IfOk, length, min};
ghost use Rattle.tk_base.specs.Ascending.{numbers_of};
ghost use Rattle.tk_base.specs.Pairs.{pairs_of};
ghost use Rattle.tk_frames.specs.Reading.{Gives, groups_at, number_at, signed_at, object_at, pair_at, items_at, set_at, pairs_at, places_at, flag_at, place_at};
ghost use Rattle.tk_frames.specs.Spelling.{object_itself, pair_object, no_object};

use byteorder::{BigEndian, ByteOrder};
use std::alloc::{AllocError, AllocFailed, Global};
use tk_base::{NoMemory, Obj, ObjSet, Pairs, PairsBuilder, Places};

/// Why a field was not read.
#[derive(Clone, Copy, Debug, PartialEq, Eq)]
pub enum Unread {
    Memory,
    Malformed,
}

impl From<AllocError> for Unread {
    ghost use Rattle.tk_frames.specs.declared.reading.Unread.TheVariants.{Memory};

    ghost from_gives = { λ _ e. e ≡ Memory };

    fn from(_error: AllocError) -> Unread {
        Unread::Memory
    }
}

impl From<NoMemory> for Unread {
    ghost use Rattle.tk_frames.specs.declared.reading.Unread.TheVariants.{Memory};

    ghost from_gives = { λ _ e. e ≡ Memory };

    fn from(_error: NoMemory) -> Unread {
        Unread::Memory
    }
}

impl<T: Drop> From<AllocFailed<T>> for Unread {
    ghost use Rattle.tk_frames.specs.declared.reading.Unread.TheVariants.{Memory};

    ghost from_gives = { λ _ e. e ≡ Memory };

    fn from(_error: AllocFailed<T>) -> Unread {
        Unread::Memory
    }
}

#[tactic(auto, unfolding(crate::specs::Reading::groups_at))]
/// The number up to a limit that the groups of seven bits at the front make, if they are the fewest.
fn groups(bytes: &[u8], limit: u128) -> Result<(u128, &[u8]), Unread>
    ensures value { Gives (λ x. (x.0, x.1.now)) result (groups_at limit bytes.now) }
    ensures within { IfOk result (λ x. x.0 ≤ limit) }
{
    let [first, rest @ ..] = bytes else {
        return Err(Unread::Malformed);
    };
    let group = *first as u128;
    if group < 128 {
        if limit < group {
            return Err(Unread::Malformed);
        }
        return Ok((group, rest));
    }
    if limit < 128 {
        return Err(Unread::Malformed);
    }
    let (high, rest) = groups(rest, limit / 128)?;
    if high == 0 {
        return Err(Unread::Malformed);
    }
    let number = 128 * high + (group - 128);
    if limit < number {
        return Err(Unread::Malformed);
    }
    Ok((number, rest))
}

/// A byte, and what follows it.
#[tactic(auto, unfolding(crate::specs::Reading::number_at, crate::specs::Reading::bytes_at))]
pub fn byte(bytes: &[u8]) -> Result<(u8, &[u8]), Unread>
    ensures { Gives (λ x. (x.0, x.1.now)) result (number_at 1 1 bytes.now) }
{
    let [first, rest @ ..] = bytes else {
        return Err(Unread::Malformed);
    };
    Ok((*first, rest))
}

/// A number of 32 bits, and what follows it.
#[tactic(auto, unfolding(crate::specs::Reading::number_at, crate::specs::Reading::bytes_at))]
pub fn u32_at(version: u8, bytes: &[u8]) -> Result<(u32, &[u8]), Unread>
    ensures { Gives (λ x. (x.0, x.1.now)) result (number_at version 4 bytes.now) }
{
    if version == 1 {
        if bytes.len() < 4 {
            return Err(Unread::Malformed);
        }
        return Ok((BigEndian::read_u32(bytes), &bytes[4..]));
    }
    let (number, rest) = groups(bytes, u32::MAX as u128)?;
    Ok((number as u32, rest))
}

/// A number of 64 bits, and what follows it.
#[tactic(auto, unfolding(crate::specs::Reading::number_at, crate::specs::Reading::bytes_at))]
pub fn u64_at(version: u8, bytes: &[u8]) -> Result<(u64, &[u8]), Unread>
    ensures { Gives (λ x. (x.0, x.1.now)) result (number_at version 8 bytes.now) }
{
    if version == 1 {
        if bytes.len() < 8 {
            return Err(Unread::Malformed);
        }
        return Ok((BigEndian::read_u64(bytes), &bytes[8..]));
    }
    let (number, rest) = groups(bytes, u64::MAX as u128)?;
    Ok((number as u64, rest))
}

#[tactic(auto, unfolding(crate::specs::Reading::number_at, crate::specs::Reading::bytes_at))]
fn u128_at(version: u8, bytes: &[u8]) -> Result<(u128, &[u8]), Unread>
    ensures { Gives (λ x. (x.0, x.1.now)) result (number_at version 16 bytes.now) }
{
    if version == 1 {
        if bytes.len() < 16 {
            return Err(Unread::Malformed);
        }
        return Ok((BigEndian::read_u128(bytes), &bytes[16..]));
    }
    groups(bytes, u128::MAX)
}

/// A whole number of 128 bits, and what follows it.
#[tactic(auto, unfolding(crate::specs::Reading::signed_at))]
pub fn i128_at(version: u8, bytes: &[u8]) -> Result<(i128, &[u8]), Unread>
    ensures { Gives (λ x. (x.0, x.1.now)) result (signed_at version bytes.now) }
{
    let (number, rest) = u128_at(version, bytes)?;
    if version == 1 {
        return Ok((number.cast_signed(), rest));
    }
    let half = (number / 2) as i128;
    let signed = if number % 2 == 0 { half } else { -1 - half };
    Ok((signed, rest))
}

/// A flag, and what follows it.
#[tactic(auto, unfolding(crate::specs::Reading::flag_at))]
pub fn flag(bytes: &[u8]) -> Result<(bool, &[u8]), Unread>
    ensures { Gives (λ x. (x.0, x.1.now)) result (flag_at bytes.now) }
{
    match bytes {
        [0, rest @ ..] => Ok((false, rest)),
        [1, rest @ ..] => Ok((true, rest)),
        _ => Err(Unread::Malformed),
    }
}

#[tactic(auto, unfolding(crate::specs::Reading::object_at))]
fn object(version: u8, before: u32, bytes: &[u8]) -> Result<(u32, &[u8]), Unread>
    ensures { Gives (λ x. (x.0, x.1.now)) result (object_at version before bytes.now) }
{
    let (number, rest) = u32_at(version, bytes)?;
    let object = if version == 1 {
        number as u64
    } else {
        before as u64 + number as u64
    };
    if object <= before as u64 {
        return Err(Unread::Malformed);
    }
    if object > u32::MAX as u64 {
        return Err(Unread::Malformed);
    }
    Ok((object as u32, rest))
}

#[tactic(auto, unfolding(crate::specs::Reading::pair_at))]
fn pair(version: u8, before: u32, bytes: &[u8]) -> Result<((Obj, i128), &[u8]), Unread>
    ensures { Gives (λ x. ((x.0.0.0, x.0.1), x.1.now)) result (pair_at version before bytes.now) }
{
    let (object, rest) = object(version, before, bytes)?;
    let (number, rest) = i128_at(version, rest)?;
    Ok(((Obj(object), number), rest))
}

/// How many items there may be: so many are claimed, and each takes some bytes of those that are left.
fn most_items(count: u32, bytes: &[u8], least: usize) -> usize
    requires { 0 < least }
    ensures { result ≡ min count (length bytes.now / least) }
{
    (count as usize).min(bytes.len() / least)
}

fn objects(
    alloc: Global,
    version: u8,
    count: u32,
    bytes: &[u8],
) -> Result<(Vec<Obj>, &[u8]), Unread>
    ensures { Gives (λ x. (numbers_of x.0.items, x.1.now)) result (items_at object_itself (object_at version) 0 count bytes.now) }
{
    let mut list = Vec::with_capacity(alloc, most_items(count, bytes, 1))?;
    let mut rest = bytes;
    let mut before = 0;
    for _ in 0..count {
        let (number, after) = object(version, before, rest)?;
        list.push(Obj(number))?;
        before = number;
        rest = after;
    }
    Ok((list, rest))
}

fn pair_list(
    alloc: Global,
    version: u8,
    count: u32,
    bytes: &[u8],
) -> Result<(PairsBuilder, &[u8]), Unread>
    ensures { Gives (λ x. (x.0, x.1.now)) result (items_at pair_object (pair_at version) 0 count bytes.now) }
{
    let mut list = PairsBuilder::with_capacity(alloc, most_items(count, bytes, 2))?;
    let mut rest = bytes;
    let mut before = 0;
    for _ in 0..count {
        let (item, after) = pair(version, before, rest)?;
        list.push(item.0, item.1)?;
        before = item.0.0;
        rest = after;
    }
    Ok((list, rest))
}

fn numbers(
    alloc: Global,
    version: u8,
    count: u32,
    bytes: &[u8],
) -> Result<(Vec<u32>, &[u8]), Unread>
    ensures { Gives (λ x. (x.0.items, x.1.now)) result (items_at no_object (place_at version) 0 count bytes.now) }
{
    let mut list = Vec::with_capacity(alloc, most_items(count, bytes, 1))?;
    let mut rest = bytes;
    for _ in 0..count {
        let (number, after) = u32_at(version, rest)?;
        list.push(number)?;
        rest = after;
    }
    Ok((list, rest))
}

/// A set of objects, and what follows it.
#[tactic(auto, unfolding(crate::specs::Reading::counted_at))]
pub fn set(alloc: Global, version: u8, bytes: &[u8]) -> Result<(ObjSet, &[u8]), Unread>
    ensures { Gives (λ x. (x.0, x.1.now)) result (set_at version bytes.now) }
{
    let (count, rest) = u32_at(version, bytes)?;
    let (list, rest) = objects(alloc, version, count, rest)?;
    match ObjSet::new(list) {
        Ok(set) => Ok((set, rest)),
        Err(_) => Err(Unread::Malformed),
    }
}

/// Objects with their numbers, and what follows them.
#[tactic(auto, unfolding(crate::specs::Reading::counted_at))]
pub fn pairs(alloc: Global, version: u8, bytes: &[u8]) -> Result<(Pairs, &[u8]), Unread>
    ensures { Gives (λ x. (x.0, x.1.now)) result (pairs_at version bytes.now) }
{
    let (count, rest) = u32_at(version, bytes)?;
    let (list, rest) = pair_list(alloc, version, count, rest)?;
    match list.finish() {
        Ok(pairs) => Ok((pairs, rest)),
        Err(_) => Err(Unread::Malformed),
    }
}

/// Places, and what follows them.
#[tactic(auto, unfolding(crate::specs::Reading::counted_at))]
pub fn places(alloc: Global, version: u8, bytes: &[u8]) -> Result<(Places, &[u8]), Unread>
    ensures { Gives (λ x. (x.0, x.1.now)) result (places_at version bytes.now) }
{
    let (count, rest) = u32_at(version, bytes)?;
    let (list, rest) = numbers(alloc, version, count, rest)?;
    Ok((Places::new(list), rest))
}
