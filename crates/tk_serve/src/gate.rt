//! What feeders pass before their raises, so that tests can hold them there.

use tk_base::{Feeder, Mon};

/// What a feeder passes before each raise. A test holds feeders there; it has no handle, so it may only spin or yield.
pub trait Gate {
    /// Returns once this feeder of the monitor may raise its next change.
    fn before(&self, mon: Mon, f: Feeder);
}

/// A gate that holds nobody.
#[derive(Clone, Copy, Debug)]
pub struct OpenGate;

impl Gate for OpenGate {
    fn before(&self, _mon: Mon, _f: Feeder) {}
}
