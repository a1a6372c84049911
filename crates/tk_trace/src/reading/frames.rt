//! A frame, read at the front of some bytes.

ghost use Rattle.tk_trace.specs.Reading.{Gives, frame_at};

use crate::fault::ParseFault;
use std::alloc::Global;
use tk_frames::{Frame, KeptFrame, Next, next};

fn frame(alloc: Global, bytes: &[u8]) -> Result<(Frame, &[u8]), ParseFault>
    ensures { Gives (λ x. (x.0, x.1.now)) result (frame_at bytes.now) }
{
    match next(alloc, bytes, 1)? {
        Next::Whole(frame, size) => Ok((frame, &bytes[size..])),
        Next::Part => Err(ParseFault::NotATrace),
        Next::Bad(_) => Err(ParseFault::NotATrace),
    }
}

/// A frame, and what follows it.
pub fn kept_frame(alloc: Global, bytes: &[u8]) -> Result<(KeptFrame, &[u8]), ParseFault>
    ensures { Gives (λ x. (x.0, x.1.now)) result (frame_at bytes.now) }
{
    let (frame, rest) = frame(alloc, bytes)?;
    match KeptFrame::new(alloc, frame) {
        Ok(frame) => Ok((frame, rest)),
        Err(frame) => {
            drop(frame);
            Err(ParseFault::NoMemory)
        }
    }
}
