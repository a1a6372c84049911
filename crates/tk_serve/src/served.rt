//! What a port leaves, and why its serving ended.

ghost use Rattle.std.specs.Prelude.{◌≡◌, []};
ghost use Rattle.tk_trail.specs.Legal.{IsLegal};
ghost use Rattle.tk_trail.specs.Readings.{taken_by};
ghost use Rattle.tk_end.specs.Link.{Covers};
ghost use Rattle.tk_story.specs.Ends.{as_made};
ghost use Rattle.tk_serve.specs.Serving.{why_of};

use tk_port::Port;
use tk_story::MonEnd;
use tk_wire::{Rest, Wire};

/// Why a serving ended: the first of these that is so.
#[derive(Clone, Copy, Debug, PartialEq, Eq)]
pub enum Why {
    /// What came next was not taken; the end keeps it.
    Odd,
    /// The monitor took Stop.
    Stopped,
    /// The link failed or ended, or the rest failed.
    Failed,
    /// There was no memory.
    NoMemory,
}

/// What is left of a port once its serving ended.
#[derive(Drop)]
pub struct Served<W, Q> {
    pub end: MonEnd,
    pub link: W,
    pub rest: Q,
    pub why: Why,
}

/// Why a serving ended that left this.
fn cause_of<W: Wire, Q: Rest>(end: &MonEnd, link: &W, rest: &Q) -> Why
    ensures { result ≡ why_of end.now (W.counts link.now) (Q.fault_count rest.now) }
{
    if end.odd.is_some() {
        Why::Odd
    } else if end.monitor.stopped() {
        Why::Stopped
    } else if link.faults() > 0 || link.ends() > 0 || rest.faults() > 0 {
        Why::Failed
    } else {
        Why::NoMemory
    }
}

/// What is left of a port as it stands, whether it was served or never. It waits for nobody.
pub fn retire<W: Wire, Q: Rest>(port: Port<W>, rest: Q) -> Served<W, Q>
    ensures monitor { as_made result.end.monitor ≡ as_made port.monitor }
    ensures legal { IsLegal result.end.monitor.setup result.end.monitor.trail }
    ensures covered { Covers port.link.version (taken_by result.end.monitor.trail) [] (W.counts result.link).taken }
    ensures why { result.why ≡ why_of result.end (W.counts result.link) (Q.fault_count result.rest) }
{
    let (end, link) = port.into_end();
    let why = cause_of(&end, &link, &rest);
    Served {
        end,
        link,
        rest,
        why,
    }
}
