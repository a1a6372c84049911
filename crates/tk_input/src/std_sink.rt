//! Standard output as the output of a run, with its failed puts counted.

ghost use Rattle.std.specs.Io.KnownBytes.{Appends};
ghost use Rattle.std.specs.Prelude.{◌≡◌, None, OnOk};
ghost use Rattle.tk_input.specs.Sink.{put_faults};

use crate::edges::put_all;
use crate::sink::{PutFailed, Sink};
use std::io;
use std::io::Write;
use std::marker::Model;

/// Standard output. Nothing is known of what it takes.
#[derive(Debug, Drop)]
pub struct StdSink<R> {
    system: R,
    faults: u64,
}

impl<R> Model for StdSink<R> {
    ghost use Rattle.std.specs.Prelude.{ℕ};

    ghost Value = { ℕ };

    ghost view = { λ s. s.faults };
}

impl<R: Print> StdSink<R> {
    /// No put has failed yet.
    pub fn new(system: R) -> StdSink<R>
        ensures { result ≡ 0 }
    {
        StdSink { system, faults: 0 }
    }
}

/// Hands all of the bytes to a writer, and counts where that fails.
fn put_counted<W: Write>(to: &mut W, bytes: &[u8], faults: &mut u64) -> Result<(), PutFailed>
    ensures ok { OnOk result (Appends (W.contents to.old) (W.contents to.new) bytes.now) }
    ensures counted { faults.new ≡ put_faults result faults.old }
{
    let outcome = put_all(to, bytes);
    if outcome.is_err() {
        *faults = faults.saturating_add(1);
    }
    outcome
}

impl<R: Print> Sink for StdSink<R> {
    ghost written = { λ s. None };

    ghost fault_count = { λ s. s };

    fn faults(&self) -> u64 {
        self.faults
    }

    fn put(&mut self, bytes: &[u8]) -> Result<(), PutFailed> {
        put_counted(&mut io::writer(&self.system), bytes, &mut self.faults)
    }
}
