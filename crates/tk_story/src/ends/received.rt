//! What can come over a link: a frame, or bytes that are none.

ghost use Rattle.std.specs.Prelude.{◌≡◌, IfOk};

use crate::ends::bytes::Bytes;
use tk_base::NoMemory;
use tk_frames::Frame;

/// What a node received.
#[derive(Debug, Drop, PartialEq)]
pub enum Received {
    Frame(Frame),
    /// A whole payload that is no frame, or the four bytes of a length that no payload has.
    Bytes(Bytes),
}

impl Received {
    /// The same once more.
    pub fn try_clone(&self) -> Result<Received, NoMemory>
        ensures { IfOk result (λ received. received ≡ self.now) }
    {
        match self {
            Received::Frame(frame) => Ok(Received::Frame(frame.try_clone()?)),
            Received::Bytes(bytes) => Ok(Received::Bytes(bytes.try_clone()?)),
        }
    }
}
