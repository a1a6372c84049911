//! What goes over the wire in memory of one seat.

ghost use Rattle.tk_hub.specs.End.{SeatDrains, SeatFills};

use tk_end::Link;
use tk_wire::{Pipe, Piped};

/// As the drain of the wire; where the seat is free or its link is shut nothing moves.
pub fn drain<W: Piped>(seat: &mut Option<Link<W>>, to: &mut Pipe) -> usize
    ensures { SeatDrains W.piece W.bearing result seat.old seat.new to.old to.new }
{
    match seat {
        Some(link) => link.drain(to),
        None => 0,
    }
}

/// As the fill of the wire; where the seat is free or its link is shut nothing moves.
pub fn fill<W: Piped>(seat: &mut Option<Link<W>>, from: &mut Pipe) -> usize
    ensures { SeatFills W.piece W.bearing result seat.old seat.new from.old from.new }
{
    match seat {
        Some(link) => link.fill(from),
        None => 0,
    }
}
