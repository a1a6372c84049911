//! The line at the front of what is held, taken and judged.

ghost use Rattle.std.specs.Prelude.{◌≡◌, IfOk, OnErr, length};
ghost use Rattle.tk_stream.specs.Taking.{IsMetOf, Meets};

use crate::front::{Front, front_of};
use crate::line::{Judged, judge};
use crate::line_buffer::LineBuffer;
use crate::line_fault::LineFault;
use std::alloc::Global;
use tk_base::NoMemory;
use tk_input::Catalog;

/// What was met at the front.
pub enum Met {
    /// A line, which is taken.
    Line(Judged),
    /// No whole line.
    Part,
    /// Nothing, at the end.
    Nothing,
}

/// Takes the line at the front, if it is whole or surely too long. Want of memory leaves it.
pub fn take_front(
    alloc: Global,
    buffer: &mut LineBuffer,
    ended: bool,
    names: &Catalog,
    ticks: bool,
) -> Result<Met, NoMemory>
    ensures ok { IfOk result (λ met. Meets ticks names.now met buffer.old buffer.new ended) }
    ensures err { OnErr result (buffer.new ≡ buffer.old) }
    ensures object { IfOk result (IsMetOf ticks (length names.now)) }
{
    match front_of(buffer.held(), ended) {
        Front::Line(line, taken) => {
            let judged = judge(alloc, line, names, ticks)?;
            buffer.remove(taken);
            Ok(Met::Line(judged))
        }
        Front::TooLong => {
            buffer.pass();
            Ok(Met::Line(Judged::Bad(LineFault::TooLong)))
        }
        Front::Part => Ok(Met::Part),
        Front::Nothing => Ok(Met::Nothing),
    }
}
