//! The bytes of a stream that were read and are not taken as lines.

ghost use Rattle.std.specs.Prelude.{◌≡◌, ◌<◌, ◌≤◌, ◌+◌, ◌-◌, [], Ok, true, false, IfOk, length, take, drop, slice_range};
ghost use Rattle.tk_stream.specs.LineBuffer.{left_in};
ghost use Rattle.tk_stream.specs.Source.{Gives, read_faults};

use crate::front::{MOST_HELD, feed_in};
use crate::source::{ReadFailed, Source};
use std::alloc::Global;
use std::marker::Model;
use tk_base::NoMemory;

/// Bytes in their order; or none, inside a line that is passed over.
#[derive(Drop)]
pub struct LineBuffer {
    bytes: Vec<u8>,
    start: usize,
    end: usize,
    passing: bool,
}

impl Model for LineBuffer {
    ghost use Rattle.std.specs.Prelude.{◌≡◌, ◌≤◌, slice_range, true, vec_len};
    ghost use Rattle.tk_stream.specs.LineBuffer.{Held};

    ghost Value = { Held };

    ghost view = { λ b. record { bytes = slice_range b.bytes.items b.start b.end; passing = b.passing } };

    ghost invariant = { λ b. (b.start ≤ b.end) × (b.end ≤ 65538) × (vec_len b.bytes ≡ 65538) × (b.passing ≡ true → b.end ≡ b.start) };
}

/// Copies what stands between two places to the front.
fn move_to_front(bytes: &mut [u8], start: usize, end: usize)
    requires { (start ≤ end) × (end ≤ length bytes.old) }
    ensures { take (end - start) bytes.new ≡ slice_range bytes.old start end }
{
    bytes.copy_within(start..end, 0);
}

/// Copies what stands between two places to the front, and reads once to the places behind it.
fn refill<S: Source>(
    source: &mut S,
    bytes: &mut [u8],
    start: usize,
    end: usize,
) -> Result<usize, ReadFailed>
    requires within { (start ≤ end) × (end ≤ length bytes.old) }
    requires room { end - start < length bytes.old }
    ensures front { take (end - start) bytes.new ≡ slice_range bytes.old start end }
    ensures fits { IfOk result (λ n. end - start + n ≤ length bytes.old) }
    ensures told { S.tells ≡ true → Gives result (drop (end - start) bytes.new) (S.content source.old) (S.content source.new) }
    ensures counted { S.fault_count source.new ≡ read_faults result (S.fault_count source.old) }
{
    move_to_front(bytes, start, end);
    read_behind(source, bytes, end - start)
}

/// One read, to the places from `end` on.
fn read_behind<S: Source>(source: &mut S, bytes: &mut [u8], end: usize) -> Result<usize, ReadFailed>
    requires { end < length bytes.old }
    ensures front { take end bytes.new ≡ take end bytes.old }
    ensures fits { IfOk result (λ n. n ≤ length bytes.old - end) }
    ensures told { S.tells ≡ true → Gives result (drop end bytes.new) (S.content source.old) (S.content source.new) }
    ensures counted { S.fault_count source.new ≡ read_faults result (S.fault_count source.old) }
{
    source.read(&mut bytes[end..])
}

impl LineBuffer {
    /// No bytes are held.
    pub fn new(alloc: Global) -> Result<LineBuffer, NoMemory>
        ensures { IfOk result (λ b. b ≡ record { bytes = []; passing = false }) }
    {
        Ok(LineBuffer {
            bytes: vec![in alloc; 0; MOST_HELD]?,
            start: 0,
            end: 0,
            passing: false,
        })
    }

    /// The bytes that are held, in order; none inside a line that is passed over.
    pub fn held(&self) -> &[u8]
        ensures bytes { result.now ≡ self.now.bytes }
        ensures none { self.now.passing ≡ true → self.now.bytes ≡ [] }
    {
        &self.bytes[self.start..self.end]
    }

    /// Removes bytes from the front.
    pub fn remove(&mut self, count: usize)
        requires { count ≤ length self.old.bytes }
        ensures bytes { self.new.bytes ≡ drop count self.old.bytes }
        ensures passing { self.new.passing ≡ self.old.passing }
    {
        self.start += count;
    }

    /// Passes over the bytes that are held and those that follow, up to the next line feed.
    pub fn pass(&mut self)
        ensures { self.new ≡ record { bytes = []; passing = true } }
    {
        self.start = 0;
        self.end = 0;
        self.passing = true;
    }

    /// Reads once, and says whether anything came.
    pub fn fill<S: Source>(&mut self, source: &mut S) -> Result<bool, ReadFailed>
        requires { length self.old.bytes < 65538 }
        ensures left { S.tells ≡ true → left_in self.new (S.content source.new) ≡ left_in self.old (S.content source.old) }
        ensures end { result ≡ Ok false → S.tells ≡ true → S.content source.new ≡ [] }
        ensures counted { S.fault_count source.new ≡ read_faults result (S.fault_count source.old) }
    {
        if self.passing {
            self.fill_passing(source)
        } else {
            self.fill_behind(source)
        }
    }

    /// As `fill`, behind the bytes that are held.
    fn fill_behind<S: Source>(&mut self, source: &mut S) -> Result<bool, ReadFailed>
        requires passing { self.old.passing ≡ false }
        requires room { length self.old.bytes < 65538 }
        ensures left { S.tells ≡ true → left_in self.new (S.content source.new) ≡ left_in self.old (S.content source.old) }
        ensures end { result ≡ Ok false → S.tells ≡ true → S.content source.new ≡ [] }
        ensures counted { S.fault_count source.new ≡ read_faults result (S.fault_count source.old) }
    {
        let outcome = refill(source, &mut self.bytes, self.start, self.end);
        self.end -= self.start;
        self.start = 0;
        match outcome {
            Ok(count) => {
                self.end += count;
                Ok(count != 0)
            }
            Err(ReadFailed) => Err(ReadFailed),
        }
    }

    /// As `fill`, inside a line that is passed over.
    fn fill_passing<S: Source>(&mut self, source: &mut S) -> Result<bool, ReadFailed>
        requires { self.old.passing ≡ true }
        ensures left { S.tells ≡ true → left_in self.new (S.content source.new) ≡ left_in self.old (S.content source.old) }
        ensures end { result ≡ Ok false → S.tells ≡ true → S.content source.new ≡ [] }
        ensures counted { S.fault_count source.new ≡ read_faults result (S.fault_count source.old) }
    {
        let Ok(count) = read_behind(source, &mut self.bytes, 0) else {
            return Err(ReadFailed);
        };
        let place = match feed_in(&self.bytes[..count]) {
            Some(place) => place,
            None => return Ok(count != 0),
        };
        self.start = place + 1;
        self.end = count;
        self.passing = false;
        Ok(true)
    }
}
