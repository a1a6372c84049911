//! What goes in and out: to the end of a reader, and all of the bytes to a writer.

ghost use Rattle.std.specs.Prelude.{◌≡◌, ◌≢◌, ◌<◌, ◌≤◌, IfSome, IsErrOf, OnOk, length};
ghost use Rattle.std.specs.Io.KnownBytes.{Appends};
ghost use Rattle.tk_base.specs.History.{IsFront};

use crate::files::{FileFault, MAX_LENGTH};
use crate::sink::PutFailed;
use std::io;
use std::io::{Read, Write};

/// Want of memory, or a failed read.
pub fn fault_of(error: &io::Error) -> FileFault
    ensures { result ≢ FileFault.TooLong }
{
    if error.kind() == io::ErrorKind::OutOfMemory {
        FileFault::NoMemory
    } else {
        FileFault::Failed
    }
}

/// Reads to the end, or one byte over the limit. Only a read that gives no byte tells the end: a short
/// read does not, nor does a failed one.
pub fn take_all<F: Read + Drop>(from: F, bytes: &mut Vec<u8>) -> Result<(), FileFault>
    requires { length bytes.old.items ≡ 0 }
    ensures ok { OnOk result (IfSome (F.remaining from) (λ told. bytes.new.items ≡ told)) }
    // However the reading ends, what was read is a front of what there is.
    ensures front { IfSome (F.remaining from) (λ told. IsFront bytes.new.items told) }
    ensures short { OnOk result (length bytes.new.items ≤ 67108864) }
    ensures too_long { IsErrOf result FileFault.TooLong → IfSome (F.remaining from) (λ told. 67108864 < length told) }
    ensures too_much { IsErrOf result FileFault.TooLong → 67108864 < length bytes.new.items }
{
    match from.take(MAX_LENGTH as u64 + 1).read_to_end(bytes) {
        Ok(_) if bytes.len() > MAX_LENGTH => Err(FileFault::TooLong),
        Ok(_) => Ok(()),
        Err(error) => Err(fault_of(&error)),
    }
}

/// Writes all of the bytes, in as many writes as it takes. Of a write that fails the standard library tells nothing, so nothing is
/// promised of what was written then.
pub fn put_all<W: Write>(to: &mut W, bytes: &[u8]) -> Result<(), PutFailed>
    ensures { OnOk result (Appends (W.contents to.old) (W.contents to.new) bytes.now) }
{
    to.write_all(bytes).map_err(|_| PutFailed)
}
