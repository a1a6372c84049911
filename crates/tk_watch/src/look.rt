//! One look at a connection, and what it says.

ghost use Rattle.std.specs.Prelude.{◌≡◌, true, false};
ghost use Rattle.tk_port.specs.Port.{IsPort};
ghost use Rattle.tk_watch.specs.Tally.{IsTally};
ghost use Rattle.tk_watch.specs.TrailSize.{KeepsRoom};
ghost use Rattle.tk_watch.specs.Turning.{Looks, turned_by, turns_on};

use crate::cause::Cause;
use crate::tally::Tally;
use crate::turned::Turned;
use tk_port::{Port, Turn};
use tk_wire::Wire;

/// What a turn of a port says of its connection.
fn turned(turn: Turn) -> Turned
    ensures { result ≡ turned_by turn }
{
    match turn {
        Turn::More => Turned::More,
        Turn::Quiet => Turned::Quiet,
        Turn::Stopped => Turned::Stopped,
        Turn::Failed => Turned::Left(Cause::Link),
        Turn::Refused(_) => Turned::Left(Cause::Refused),
        Turn::Bad(_) => Turned::Left(Cause::Bad),
        Turn::NoMemory => Turned::Left(Cause::Memory),
    }
}

/// One look at a connection.
fn look<W: Wire>(port: &mut Port<W>) -> Turned
    ensures { Looks result port.old port.new }
{
    // The port is read for its clause, that it is open where its wire is.
    let _ = port.monitor();
    if port.halted() {
        return Turned::Left(Cause::Link);
    }
    turned(port.turn())
}

/// Whether a connection goes on behind such a look.
fn is_on(turned: Turned) -> bool
    ensures { result ≡ turns_on turned }
{
    match turned {
        Turned::More => true,
        Turned::Quiet => true,
        Turned::Stopped => false,
        Turned::Left(_) => false,
    }
}

/// One look at a connection, which is full where the frames of its trail have too many bytes then.
pub(crate) fn look_within<W: Wire>(port: &mut Port<W>, tally: &mut Tally) -> Turned
    requires { IsTally tally.old port.old.monitor.trail }
    ensures looks { Looks result port.old port.new }
    ensures room { KeepsRoom result port.new.monitor.trail }
    ensures tally { IsTally tally.new port.new.monitor.trail }
    ensures kept { IsPort port.new }
{
    let turned = look(port);
    if !tally.is_over(port.monitor().trail()) {
        return turned;
    }
    if !is_on(turned) {
        return turned;
    }
    port.halt();
    Turned::Left(Cause::Full)
}
