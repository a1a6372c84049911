ghost use Rattle.tk_hub.specs.Visitor.{IsUnused};

use crate::stand_in::StandIn;
use tk_wire::Wire;

/// How a coordinator reaches a monitor: one that is far, over a link of a host, or a stand-in beside it. Nothing has passed over
/// it once it is made.
pub trait Reach: Wire {
    type Link: Wire;

    /// Over a link.
    fn far(link: Self::Link) -> Self
        ensures { IsUnused Self.tells (Self.traffic result) };

    /// To a stand-in.
    fn near(stand_in: StandIn) -> Self
        ensures { IsUnused Self.tells (Self.traffic result) };
}
