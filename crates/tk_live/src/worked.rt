//! What a worker of a live run is given, and what it leaves.

ghost use Rattle.std.specs.Prelude.{◌≡◌, []};
ghost use Rattle.tk_trail.specs.Readings.{taken_by};
ghost use Rattle.tk_end.specs.Link.{Covers};
ghost use Rattle.tk_serve.specs.Serving.{why_of};

use tk_port::Port;
use tk_serve::Served;
use tk_wire::{Rest, Wire};

/// A port with the version of its frames, its rest and its bell, before it is served.
#[derive(Drop)]
pub struct Berth<W: Wire, Q, B> {
    pub port: Port<W>,
    pub version: u8,
    pub rest: Q,
    pub bell: B,
    pub ghost version_is: { port.link.version ≡ version },
}

/// What a worker leaves: its link gave no fewer bytes than the frames have that its monitor took, and why it ended is what
/// its end, its link and its rest show.
#[derive(Drop)]
pub struct Worked<W: Wire, Q: Rest> {
    pub served: Served<W, Q>,
    pub version: u8,
    pub ghost covered: { Covers version (taken_by served.end.monitor.trail) [] (W.counts served.link).taken },
    pub ghost why: { served.why ≡ why_of served.end (W.counts served.link) (Q.fault_count served.rest) },
}
