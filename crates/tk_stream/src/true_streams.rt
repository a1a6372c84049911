//! The system's files as streams.

ghost use Rattle.std.specs.Prelude.{◌≡◌, []};
ghost use Rattle.tk_stream.specs.TrueStreams.{system_name};

use crate::streams::{OpenFault, Streams};
use crate::true_source::TrueSource;
use std::fs::File;
use std::{fs, io, rt};

/// Where the system has standard input as a file.
const STANDARD_INPUT: &str = "/dev/stdin";

/// The files of the system by their names; `-` is standard input, and a file of that name is `./-`.
#[derive(Debug, Drop)]
pub struct TrueStreams<R> {
    system: R,
}

impl<R: rt::Files<File = File>> TrueStreams<R> {
    /// No stream is open yet.
    pub fn new(system: R) -> TrueStreams<R> {
        TrueStreams { system }
    }
}

/// The name that the system has for a stream.
fn path_of(name: &str) -> &str
    ensures { result.now ≡ system_name name.now }
{
    if name == "-" { STANDARD_INPUT } else { name }
}

fn fault_of(error: &io::Error) -> OpenFault {
    if error.kind() == io::ErrorKind::OutOfMemory {
        OpenFault::NoMemory
    } else {
        OpenFault::Failed
    }
}

impl<R: rt::Files<File = File>> Streams for TrueStreams<R> {
    type Source = TrueSource<File>;

    ghost content = { λ s name. [] };

    fn open(&mut self, name: &str) -> Result<TrueSource<File>, OpenFault> {
        match fs::open(&self.system, path_of(name)) {
            Ok(file) => Ok(TrueSource::new(file)),
            Err(error) => Err(fault_of(&error)),
        }
    }
}
