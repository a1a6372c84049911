//! Whether a line ends a tick.

ghost use Rattle.std.specs.Prelude.{◌≡◌, IfOk};
ghost use Rattle.tk_input.specs.Records.{records_in};
ghost use Rattle.tk_stream.specs.Line.{are_tick};

use crate::plain::comma_in;
use csv::ByteRecord;
use std::alloc::Global;
use tk_base::NoMemory;
use tk_input::Records;
use tk_window::is_mark;

/// Whether the records of a text are one mark and no more.
fn is_mark_alone(alloc: Global, text: &[u8]) -> Result<bool, NoMemory>
    ensures { IfOk result (λ is. is ≡ are_tick (records_in text.now)) }
{
    let mut rows = Records::new(alloc, text);
    let mut first = ByteRecord::new(alloc);
    if !rows.next(&mut first)? {
        return Ok(false);
    }
    if !is_mark(&first) {
        return Ok(false);
    }
    let mut more = ByteRecord::new(alloc);
    Ok(!rows.next(&mut more)?)
}

/// Whether a line, read as a log of its own, is the mark that ends a tick, and no more. A plain line is none, and takes no
/// memory.
pub fn is_tick(alloc: Global, line: &[u8]) -> Result<bool, NoMemory>
    ensures { IfOk result (λ is. is ≡ are_tick (records_in line.now)) }
{
    match comma_in(line) {
        Some(_) => Ok(false),
        None => is_mark_alone(alloc, line),
    }
}
