ghost use Rattle.std.specs.Prelude.{◌≡◌, ◌<◌, length};
ghost use Rattle.tk_wire.specs.Meanings.{FitsSlice, FitsBytes};

use crate::source::Source;
use mio::net::TcpStream;
use std::io;
use std::io::{ErrorKind, Read, Write};
use std::net::Shutdown;
use tk_wire::{Gave, Took};

/// A socket that never waits.
#[derive(Drop)]
pub(crate) struct Socket {
    stream: TcpStream,
}

// Whether a call would only have had to wait.
fn is_early(error: &io::Error) -> bool {
    matches!(error.kind(), ErrorKind::WouldBlock | ErrorKind::Interrupted)
}

impl Socket {
    /// The socket of a stream that never waits.
    pub(crate) fn new(stream: TcpStream) -> Socket {
        Socket { stream }
    }

    /// Gives bytes from the front of a slice.
    pub(crate) fn write(&mut self, bytes: &[u8]) -> Gave
        requires { 0 < length bytes.now }
        ensures { FitsBytes result (length bytes.now) }
    {
        match self.stream.write(bytes) {
            Ok(0) => Gave::NotYet,
            Ok(count) => Gave::Bytes(count),
            Err(error) if is_early(&error) => Gave::NotYet,
            Err(_) => Gave::Failed,
        }
    }

    /// Closes both ways.
    pub(crate) fn shut(&self) {
        // Where the peer has closed it before, nothing is left to close.
        let _ = self.stream.shutdown(Shutdown::Both);
    }
}

impl Source for Socket {
    fn read(&mut self, into: &mut [u8]) -> Took {
        match self.stream.read(into) {
            Ok(0) => Took::End,
            Ok(count) => Took::Bytes(count),
            Err(error) if is_early(&error) => Took::NotYet,
            Err(_) => Took::Failed,
        }
    }
}
