ghost use Rattle.tk_hub.specs.Visitor.{IsUnused};

use tk_wire::{Greeting, Wire};

/// A connection that was accepted, with what its monitor said first. Nothing has passed over it yet.
#[derive(Drop)]
pub struct Knock<W: Wire> {
    pub link: W,
    pub greeting: Greeting,
    pub ghost is_unused: { IsUnused W.tells (W.traffic link) },
}
