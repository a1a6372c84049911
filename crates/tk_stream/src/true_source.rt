//! A file of the system as a stream, with its failed reads counted.

ghost use Rattle.std.specs.Prelude.{◌≡◌, ◌≤◌, [], false, IfOk, length};
ghost use Rattle.tk_stream.specs.Source.{read_faults};

use crate::source::{ReadFailed, Source};
use std::io;
use std::io::Read;
use std::marker::Model;

/// A stream of the system. Nothing is known of what it gives.
#[derive(Debug, Drop)]
pub struct TrueSource<F> {
    file: F,
    faults: u64,
}

impl<F> Model for TrueSource<F> {
    ghost use Rattle.std.specs.Prelude.{ℕ};

    ghost Value = { ℕ };

    ghost view = { λ s. s.faults };
}

impl<F: Read> TrueSource<F> {
    /// No read has failed yet.
    pub fn new(file: F) -> TrueSource<F>
        ensures { result ≡ 0 }
    {
        TrueSource { file, faults: 0 }
    }
}

/// One read, tried again where a signal came between.
fn read_once<F: Read>(file: &mut F, room: &mut [u8]) -> Result<usize, ReadFailed>
    ensures { IfOk result (λ n. n ≤ length room.old) }
{
    for _ in 0..u64::MAX {
        match file.read(room) {
            Ok(count) => return Ok(count),
            Err(error) if error.kind() == io::ErrorKind::Interrupted => {}
            Err(_) => return Err(ReadFailed),
        }
    }
    Err(ReadFailed)
}

impl<F: Read> Source for TrueSource<F> {
    ghost tells = { false };

    ghost content = { λ s. [] };

    ghost fault_count = { λ s. s };

    fn faults(&self) -> u64 {
        self.faults
    }

    fn read(&mut self, room: &mut [u8]) -> Result<usize, ReadFailed> {
        let outcome = read_once(&mut self.file, room);
        if outcome.is_err() {
            self.faults = self.faults.saturating_add(1);
        }
        outcome
    }
}
