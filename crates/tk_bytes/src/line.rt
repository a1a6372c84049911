//! What one connection is in memory: a port, and a pipe each way.

use tk_port::Port;
use tk_wire::{Pipe, SureWire};

/// A monitor at its end of a connection, and the pipes between that and the coordinator's.
#[derive(Drop)]
pub struct Line {
    pub port: Port<SureWire>,
    /// From the monitor to the coordinator.
    pub up: Pipe,
    /// From the coordinator to the monitor.
    pub down: Pipe,
}
