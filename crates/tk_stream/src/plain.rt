//! Plain lines, a name and a number with a comma between them, which are read without csv.

ghost use Rattle.std.specs.Prelude.{◌≡◌, IfOk, IfSome, length, position};
ghost use Rattle.std.specs.List.{list_any};
ghost use Rattle.tk_input.specs.Logs.{IsObject};
ghost use Rattle.tk_stream.specs.Line.{line_change, record_as};
ghost use Rattle.tk_stream.specs.Plain.{IsPlain, is_mark as is_mark_of};

use crate::line_fault::LineFault;
use crate::number::whole_number_of;
use tk_input::{Catalog, Change};

/// The first byte of a byte order mark.
const ORDER_MARK: u8 = 0xef;

/// Whether a byte is a comma, a quote, or one of the ends of a line.
fn is_mark(byte: u8) -> bool
    ensures { result ≡ is_mark_of byte }
{
    byte == b',' || byte == b'"' || byte == b'\r' || byte == b'\n'
}

fn mark_in(text: &[u8]) -> Option<usize>
    ensures { result ≡ position is_mark_of text.now }
{
    text.iter().position(|b| is_mark(*b))
}

fn has_mark(text: &[u8]) -> bool
    ensures { result ≡ list_any is_mark_of text.now }
{
    text.iter().any(|b| is_mark(*b))
}

/// The place of the comma of a plain line: the only mark, behind a first byte that begins no byte order mark.
pub fn comma_in(line: &[u8]) -> Option<usize>
    ensures { IfSome result (IsPlain line.now) }
{
    let place = mark_in(line)?;
    if place == 0 || line[place] != b',' || line[0] == ORDER_MARK {
        return None;
    }
    if has_mark(&line[place + 1..]) {
        return None;
    }
    Some(place)
}

/// What a plain line with its comma there is, read as a log of its own.
pub fn plain_record(line: &[u8], place: usize, names: &Catalog) -> Result<Change, LineFault>
    requires { IsPlain line.now place }
    ensures value { record_as result ≡ line_change names.now line.now }
    ensures object { IfOk result (λ c. IsObject (length names.now) c.obj.0) }
{
    let Some(obj) = names.find(&line[..place]) else {
        return Err(LineFault::UnknownName);
    };
    match whole_number_of(&line[place + 1..]) {
        Some(by) => Ok(Change { obj, by }),
        None => Err(LineFault::BadNumber),
    }
}
