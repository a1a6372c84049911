ghost use Rattle.std.specs.Prelude.{◌≡◌, ◌↔◌, ◌*◌, ◌-◌, ◌^◌, ◌<◌, ◌≤◌, ◌++◌, IfNone, IfOk, IfSome, IsTrue, OnErr, OnOk, drop, length, replicate, ℕ};
ghost use Rattle.std.specs.List.{flat_map, AllByRecursion};
ghost use Rattle.tk_wire.specs.declared.greeting.Greeting.{Greeting};
ghost use Rattle.tk_wire.specs.Greeting.{GreetingIn, IsBeginning, IsGreeting, NamesMonitor, SaysTheSame, TellsStreams, beginning_bytes, greeting_bytes, number_bytes};
ghost use Rattle.tk_wire.specs.GreetingReading.{HasForm, beginning_at, beginnings_at};

use crate::beginning::Beginning;
use byteorder::{BigEndian, ByteOrder};
use std::alloc::Global;
use tk_base::{Mon, NoMemory};

/// How many bytes a greeting has.
pub const GREETING_SIZE: usize = 113;

/// With which bytes it begins.
const MARK: [u8; 4] = *b"TKC1";

/// What stands in the places of 8 beginnings where there are none.
const PADDING: [u8; 96] = [0; 96];

/// The greatest number of a monitor.
const MOST_MONITORS: u32 = 64;

/// The most streams of a monitor.
const MOST_STREAMS: usize = 8;

/// What a monitor says first on a connection between hosts: its run, its number, and where each of its 1 to 8 streams begins.
#[derive(Debug, Drop)]
pub struct Greeting {
    pub run: u64,
    pub mon: Mon,
    pub beginnings: Vec<Beginning>,
}

/// Appends a number of 64 bits, the highest byte first.
#[tactic(auto, unfolding(crate::specs::Greeting::number_bytes))]
fn put_u64(out: &mut Vec<u8>, number: u64) -> Result<(), NoMemory>
    ensures bytes { OnOk result (out.new.items ≡ out.old.items ++ number_bytes 8 number) }
    ensures within { number < 2 ^ 64 }
{
    out.extend_from_slice(&number.to_be_bytes())?;
    Ok(())
}

/// Appends a number of 32 bits, the highest byte first.
#[tactic(auto, unfolding(crate::specs::Greeting::number_bytes))]
fn put_u32(out: &mut Vec<u8>, number: u32) -> Result<(), NoMemory>
    ensures bytes { OnOk result (out.new.items ≡ out.old.items ++ number_bytes 4 number) }
    ensures within { number < 2 ^ 32 }
{
    out.extend_from_slice(&number.to_be_bytes())?;
    Ok(())
}

/// Appends beginnings, one behind the other.
fn put_beginnings(out: &mut Vec<u8>, beginnings: &[Beginning]) -> Result<(), NoMemory>
    ensures bytes { OnOk result (out.new.items ≡ out.old.items ++ flat_map beginning_bytes beginnings.now) }
    ensures each { OnOk result (AllByRecursion IsBeginning beginnings.now) }
{
    let [first, others @ ..] = beginnings else {
        return Ok(());
    };
    put_u64(out, first.count)?;
    put_u32(out, first.start)?;
    put_beginnings(out, others)
}

/// Appends what stands in the places of the beginnings that are less than 8.
fn put_padding(out: &mut Vec<u8>, streams: usize) -> Result<(), NoMemory>
    requires { streams ≤ 8 }
    ensures { OnOk result (out.new.items ≡ out.old.items ++ replicate (96 - 12 * streams) 0) }
{
    let padding = PADDING;
    out.extend_from_slice(&padding[12 * streams..])?;
    Ok(())
}

/// Whether two slices hold the same bytes.
fn is_same(these: &[u8], those: &[u8]) -> bool
    ensures { IsTrue result ↔ (these.now ≡ those.now) }
{
    these == those
}

/// How many streams bytes tell of that have the form of a greeting.
fn streams_of(bytes: &[u8]) -> Option<usize>
    ensures some { IfSome result (HasForm bytes.now) }
    ensures none { IfNone result ((n : ℕ) → HasForm bytes.now n → ⊥) }
{
    if bytes.len() != GREETING_SIZE || !is_same(&bytes[..4], &MARK) {
        return None;
    }
    let mon = BigEndian::read_u32(&bytes[12..]);
    let streams = bytes[16] as usize;
    if mon == 0 || mon > MOST_MONITORS || streams == 0 || streams > MOST_STREAMS {
        return None;
    }
    let padding = PADDING;
    if !is_same(&bytes[17 + 12 * streams..], &padding[12 * streams..]) {
        return None;
    }
    Some(streams)
}

/// The beginning in the first 12 bytes, and what follows it.
fn beginning(bytes: &[u8]) -> (Beginning, &[u8])
    requires { 12 ≤ length bytes.now }
    ensures first { result.0 ≡ beginning_at bytes.now }
    ensures rest { result.1.now ≡ drop 12 bytes.now }
{
    let count = BigEndian::read_u64(bytes);
    let start = BigEndian::read_u32(&bytes[8..]);
    (Beginning { count, start }, &bytes[12..])
}

/// So many beginnings, 12 bytes each.
fn beginnings(alloc: Global, count: usize, bytes: &[u8]) -> Result<Vec<Beginning>, NoMemory>
    requires { 12 * count ≤ length bytes.now }
    ensures { IfOk result (λ list. list.items ≡ beginnings_at count bytes.now) }
{
    let mut list = Vec::with_capacity(alloc, count)?;
    let mut rest = bytes;
    for _ in 0..count {
        let (first, after) = beginning(rest);
        list.push(first)?;
        rest = after;
    }
    Ok(list)
}

impl Greeting {
    /// Appends its 113 bytes.
    fn spell(&self, out: &mut Vec<u8>) -> Result<(), NoMemory>
        requires monitor { NamesMonitor self.now }
        requires streams { TellsStreams self.now }
        ensures ok { OnOk result (out.new.items ≡ out.old.items ++ greeting_bytes self.now) }
        ensures form { OnOk result (IsGreeting self.now) }
    {
        out.extend_from_slice(&MARK)?;
        put_u64(out, self.run)?;
        put_u32(out, self.mon.0)?;
        out.push(self.beginnings.len() as u8)?;
        put_beginnings(out, &self.beginnings)?;
        put_padding(out, self.beginnings.len())
    }

    /// Puts its 113 bytes at the end. An error leaves the bytes as they were.
    pub fn put(&self, into: &mut Vec<u8>) -> Result<(), NoMemory>
        requires monitor { NamesMonitor self.now }
        requires streams { TellsStreams self.now }
        ensures ok { OnOk result (into.new.items ≡ into.old.items ++ greeting_bytes self.now) }
        ensures err { OnErr result (into.new.items ≡ into.old.items) }
        ensures form { OnOk result (IsGreeting self.now) }
    {
        let mut bytes = Vec::with_capacity(*into.allocator(), GREETING_SIZE)?;
        self.spell(&mut bytes)?;
        into.extend_from_slice(&bytes)?;
        Ok(())
    }

    /// The greeting that these bytes are, and None where they are none: another mark, a monitor outside 1 to 64, streams
    /// outside 1 to 8, not 113 bytes, or not 0 past the streams.
    pub fn read(alloc: Global, bytes: &[u8]) -> Result<Option<Greeting>, NoMemory>
        ensures some { IfOk result (λ got. IfSome got (GreetingIn bytes.now)) }
        ensures none { IfOk result (λ got. IfNone got ((g : Greeting) → GreetingIn bytes.now g → ⊥)) }
    {
        let Some(streams) = streams_of(bytes) else {
            return Ok(None);
        };
        Ok(Some(Greeting {
            run: BigEndian::read_u64(&bytes[4..]),
            mon: Mon(BigEndian::read_u32(&bytes[12..])),
            beginnings: beginnings(alloc, streams, &bytes[17..])?,
        }))
    }

    /// The same greeting once more.
    pub fn try_clone(&self) -> Result<Greeting, NoMemory>
        ensures { IfOk result (SaysTheSame self.now) }
    {
        Ok(Greeting {
            run: self.run,
            mon: self.mon,
            beginnings: self.beginnings.clone()?,
        })
    }
}
