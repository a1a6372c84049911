//! What a port does in a turn, with its monitor and its end of the connection.

ghost use Rattle.std.specs.Prelude.{◌≡◌, ◌≤◌, length, false, true, not, IfNone, IfSome, unwrap_or};
ghost use Rattle.tk_trail.specs.Readings.{is_stopped, sent_by};
ghost use Rattle.tk_trail.specs.Setup.{IsSetup};
ghost use Rattle.tk_end.specs.Link.{Keeps};
ghost use Rattle.tk_port.specs.Port.{EndsOne, Shuts, TakesUpTo, course_of};
ghost use Rattle.tk_port.specs.Turn.{CountsTurned, Ends, Exchanges, HasSaid, IsAtRest, goes_on, pieces_of, turn_heard};
ghost use Rattle.tk_port.specs.declared.turn.Turn.{Turn as Turned};

use crate::course::Course;
use crate::side::{COORDINATOR, Side};
use crate::turn::Turn;
use tk_end::{Heard, Link};
use tk_trail::MonitorRefusal;
use tk_wire::{Pushed, Wire};

/// Writes what was sent and is not written, and gives it; or says why that ends the turn.
fn speak<W: Wire>(link: &mut Link<W>, side: &Side) -> Option<Turn>
    requires setup { IsSetup side.now.monitor.setup }
    requires within { link.old.written ≤ length (sent_by side.now.monitor.trail) }
    ensures exchanges { Exchanges 0 link.old link.new side.now side.now }
    ensures said { IfNone result (HasSaid link.new side.now.monitor) }
    ensures ends { IfSome result (Ends link.new side.now) }
    ensures counts { CountsTurned (unwrap_or result Turn.Quiet) link.old.counts link.new.counts }
    ensures stops { IfSome result (λ turn. goes_on turn ≡ false) }
    ensures on { (turn : Turned) → goes_on turn ≡ true → Ends link.old side.now turn → Ends link.new side.now turn }
{
    match link.say(side, COORDINATOR) {
        Ok(Pushed::Empty) => None,
        Ok(Pushed::NotYet) => None,
        Ok(Pushed::Failed) => Some(Turn::Failed),
        Err(_) => Some(Turn::NoMemory),
    }
}

/// What a turn answers where its link heard so.
fn turn_of(heard: Heard<MonitorRefusal>) -> Turn
    ensures { result ≡ turn_heard heard }
{
    match heard {
        Heard::Quiet => Turn::Quiet,
        Heard::More => Turn::More,
        Heard::Done => Turn::Stopped,
        Heard::Failed => Turn::Failed,
        Heard::Ended => Turn::Failed,
        Heard::Refused(why) => Turn::Refused(why),
        Heard::Bad(fault) => Turn::Bad(fault),
        Heard::NoMemory => Turn::NoMemory,
    }
}

/// Whether a turn is over, and its monitor answers nothing more.
fn is_over(turn: Turn) -> bool
    ensures { result ≡ not (goes_on turn) }
{
    match turn {
        Turn::Quiet => false,
        Turn::More => false,
        Turn::Stopped => true,
        Turn::Failed => true,
        Turn::Refused(_) => true,
        Turn::Bad(_) => true,
        Turn::NoMemory => true,
    }
}

/// Pulls at most 64 pieces and takes their frames.
fn hear<W: Wire>(link: &mut Link<W>, side: &mut Side) -> Turn
    requires setup { IsSetup side.old.monitor.setup }
    ensures exchanges { Exchanges (pieces_of result) link.old link.new side.old side.new }
    ensures ends { Ends link.new side.new result }
    ensures counts { CountsTurned result link.old.counts link.new.counts }
{
    turn_of(link.hear(side, COORDINATOR))
}

/// Checks the monitor, and says what it has sent.
fn answer<W: Wire>(link: &mut Link<W>, side: &mut Side) -> Option<Turn>
    requires setup { IsSetup side.old.monitor.setup }
    requires within { link.old.written ≤ length (sent_by side.old.monitor.trail) }
    ensures exchanges { Exchanges 0 link.old link.new side.old side.new }
    ensures rest { IfNone result (IsAtRest link.new side.new.monitor) }
    ensures ends { IfSome result (Ends link.new side.new) }
    ensures counts { CountsTurned (unwrap_or result Turn.Quiet) link.old.counts link.new.counts }
    ensures stops { IfSome result (λ turn. goes_on turn ≡ false) }
    ensures on { (turn : Turned) → goes_on turn ≡ true → Ends link.old side.old turn → Ends link.new side.new turn }
{
    match side.monitor.check() {
        Ok(_) => speak(link, side),
        Err(_) => Some(Turn::NoMemory),
    }
}

/// Says what was sent, pulls at most 64 pieces and takes their frames, checks the monitor, and says what it has sent.
pub fn exchange<W: Wire>(link: &mut Link<W>, side: &mut Side) -> Turn
    requires setup { IsSetup side.old.monitor.setup }
    requires within { link.old.written ≤ length (sent_by side.old.monitor.trail) }
    ensures exchanges { Exchanges (pieces_of result) link.old link.new side.old side.new }
    ensures ends { Ends link.new side.new result }
    ensures counts { CountsTurned result link.old.counts link.new.counts }
    ensures rest { goes_on result ≡ true → IsAtRest link.new side.new.monitor }
{
    if let Some(turn) = speak(link, side) {
        return turn;
    }
    let heard = hear(link, side);
    if is_over(heard) {
        return heard;
    }
    match answer(link, side) {
        None => heard,
        Some(turn) => turn,
    }
}

/// Pulls until a frame is whole, and takes that one.
pub fn hear_one<W: Wire>(link: &mut Link<W>, side: &mut Side) -> Turn
    requires setup { IsSetup side.old.monitor.setup }
    requires not_stopped { is_stopped side.old.monitor.trail ≡ false }
    ensures exchanges { Exchanges 0 link.old link.new side.old side.new }
    ensures takes { TakesUpTo result side.old.monitor side.new.monitor }
    ensures keeps { Keeps link.old link.new }
    ensures ends { EndsOne link.new side.new.monitor result }
    ensures counts { CountsTurned result link.old.counts link.new.counts }
{
    turn_of(link.hear_one(side, COORDINATOR))
}

/// The course after a turn, for which the wire is shut where it is closed.
pub fn conclude<W: Wire>(link: &mut Link<W>, turn: Turn) -> Course
    ensures course { result ≡ course_of turn }
    ensures shuts { Shuts (course_of turn) link.old link.new }
{
    let course = Course::after(turn);
    match course {
        Course::Open => {}
        Course::Halted => link.shut(),
        Course::Failed => link.shut(),
        Course::Refused(_) => link.shut(),
        Course::Bad(_) => link.shut(),
    }
    course
}
