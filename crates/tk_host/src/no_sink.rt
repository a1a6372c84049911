ghost use Rattle.std.specs.Prelude.{None};

use tk_input::{PutFailed, Sink};

/// A sink that drops what it is given, and never fails.
#[derive(Clone, Copy, Debug)]
pub struct NoSink;

impl Sink for NoSink {
    ghost written = { λ _. None };

    ghost fault_count = { λ _. 0 };

    fn faults(&self) -> u64 {
        0
    }

    fn put(&mut self, _bytes: &[u8]) -> Result<(), PutFailed> {
        Ok(())
    }
}
