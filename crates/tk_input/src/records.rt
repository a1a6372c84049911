//! The records of a text as csv reads them, one after the other.

ghost use Rattle.std.specs.Prelude.{◌≡◌, ◌∷◌, [], false, IfOk, MatchBool, IsTrue};
ghost use Rattle.csv.specs.Records.{fields_of};
ghost use Rattle.tk_input.specs.Records.{found_in, records_in};

use csv::{ByteRecord, Error, Reader, ReaderBuilder};
use std::alloc::Global;
use std::marker::Model;
use tk_base::NoMemory;

/// The records of a text that are still to be read, of any lengths, with no header row.
#[derive(Drop)]
pub struct Records<'a> {
    reader: Reader<&'a [u8]>,
    ended: bool,
}

impl<'a> Model for Records<'a> {
    ghost use Rattle.std.specs.Prelude.{ℕ, List};

    ghost Value = { List (List (List ℕ)) };

    ghost use Rattle.tk_input.specs.Reading.{left_of, IsReading};

    ghost view = { λ r. left_of r.ended r.reader };

    ghost invariant = { λ r. IsReading r.ended r.reader };
}

fn has_found(outcome: &Result<bool, Error>) -> bool
    ensures { result ≡ found_in outcome.now }
{
    match outcome {
        Ok(found) => *found,
        Err(_) => false,
    }
}

impl<'a> Records<'a> {
    /// All records of these bytes are still to be read.
    pub fn new(alloc: Global, bytes: &'a [u8]) -> Records<'a>
        ensures { result ≡ records_in bytes.now }
    {
        let reader = ReaderBuilder::new()
            .has_headers(false)
            .flexible(true)
            .from_reader(alloc, bytes);
        Records {
            reader,
            ended: false,
        }
    }

    /// Reads the next record into `row`, and tells whether there was one. Over bytes in memory, with
    /// records of any lengths, a read fails for want of memory alone.
    pub fn next(&mut self, row: &mut ByteRecord) -> Result<bool, NoMemory>
        ensures found { IfOk result (λ found. MatchBool found (self.old ≡ fields_of row.new ∷ self.new) (self.old ≡ [])) }
        // Behind the last record none is left, nor is one behind a read that failed.
        ensures ended { found_in result ≡ false → self.new ≡ [] }
    {
        if self.ended {
            return Ok(false);
        }
        let outcome = self.reader.read_byte_record(row);
        self.ended = !has_found(&outcome);
        outcome.map_err(|_| NoMemory)
    }
}
