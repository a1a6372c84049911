//! What a live run comes to where its ends are not joined, by what the hub, its workers and their ends show.

ghost use Rattle.std.specs.Prelude.{◌≡◌, true, map};
ghost use Rattle.tk_live.specs.Odd.{IsSomeOdd};
ghost use Rattle.tk_live.specs.Ending.{cause_told, odd_told, unjoined as unjoined_by};

use crate::faults::of_link;
use crate::parting::Parting;
use crate::returning::graver;
use tk_load::Status;
use tk_serve::Why;
use tk_story::{CoordEnd, MonEnd};

/// What is told of something that was not taken, unless an end tells it: that is told where the ends are joined.
fn where_odd(odd: bool) -> Option<Status>
    ensures { result ≡ odd_told odd }
{
    if odd { None } else { Some(Status::NoMemory) }
}

/// What is told of a cause: nothing yet after Stop, where the ends are joined.
fn of_cause(cause: Why, odd: bool, risen: bool) -> Option<Status>
    ensures { result ≡ cause_told cause odd risen }
{
    match cause {
        Why::Stopped => None,
        Why::Odd => where_odd(odd),
        Why::NoMemory => Some(Status::NoMemory),
        Why::Failed => Some(of_link(risen)),
    }
}

/// What is told before the ends are joined: that a line was not written, or else the graver of why the hub and why the
/// workers ended, by whether an end has what it did not take and whether the net's faults rose.
pub fn unjoined(parting: Parting, cause: Why, odd: bool, risen: bool) -> Option<Status>
    ensures { result ≡ unjoined_by parting cause odd risen }
{
    match parting.why() {
        Some(why) => of_cause(graver(why, cause), odd, risen),
        None => Some(Status::WriteFault),
    }
}

/// Whether some end has what it did not take.
pub fn is_odd(coordinator: &CoordEnd, monitors: &[MonEnd]) -> bool
    ensures { result ≡ true → IsSomeOdd coordinator.now.odd (map (λ end. end.odd) monitors.now) }
{
    if coordinator.odd.is_some() {
        return true;
    }
    for end in monitors {
        if end.odd.is_some() {
            return true;
        }
    }
    false
}
