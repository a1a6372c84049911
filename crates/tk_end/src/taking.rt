//! Frames handed from an inbox to an actor, one or as many as it takes.

ghost use Rattle.std.specs.Prelude.{◌≡◌, ◌<◌, IfSome, IfNone, OnSome, length};
ghost use Rattle.tk_end.specs.Hearing.{Stops, TakesIn, TakesOne};

use crate::actor::{Actor, Declined};
use crate::hearing::Step;
use crate::inbox::{Inbox, Reading};
use tk_base::Mon;

/// Lets the actor take the frame at the front, and says why where it takes none.
pub fn take_front<A: Actor>(inbox: &mut Inbox, actor: &mut A, peer: Mon) -> Option<Step<A::Refusal>>
    requires { A.IsPeer peer.0 actor.old }
    ensures stops { IfSome result (Stops A.refusal_of A.is_done peer.0 inbox.new actor.new) }
    ensures same { OnSome result ((inbox.new.unread ≡ inbox.old.unread) × (actor.new ≡ actor.old)) }
    ensures takes { IfNone result (TakesIn A.refusal_of A.after A.heard A.said peer.0 inbox.old inbox.new actor.old actor.new) }
    ensures one { IfNone result (TakesOne A.refusal_of A.after peer.0 actor.old actor.new) }
    ensures less { IfNone result (length inbox.new.unread < length inbox.old.unread) }
    ensures version { inbox.new.version ≡ inbox.old.version }
    ensures peer { A.IsPeer peer.0 actor.new }
{
    let frame = match inbox.read() {
        Ok(Reading::Whole(frame)) => frame,
        Ok(Reading::Part) => return Some(Step::Part),
        Ok(Reading::Bad(fault)) => return Some(Step::Bad(fault)),
        Err(_) => return Some(Step::NoMemory),
    };
    match actor.take(peer, frame) {
        Ok(()) => None,
        Err(Declined::Refused(why, frame)) => {
            inbox.put_back(frame);
            Some(Step::Refused(why))
        }
        Err(Declined::NoMemory(frame)) => {
            inbox.put_back(frame);
            Some(Step::NoMemory)
        }
    }
}

/// Lets the actor take every whole frame, and says why it takes no more.
pub fn take_all<A: Actor>(inbox: &mut Inbox, actor: &mut A, peer: Mon) -> Step<A::Refusal>
    requires { A.IsPeer peer.0 actor.old }
    ensures stops { Stops A.refusal_of A.is_done peer.0 inbox.new actor.new result }
    ensures takes { TakesIn A.refusal_of A.after A.heard A.said peer.0 inbox.old inbox.new actor.old actor.new }
    ensures version { inbox.new.version ≡ inbox.old.version }
    ensures peer { A.IsPeer peer.0 actor.new }
{
    while !actor.done(peer) {
        if let Some(step) = take_front(inbox, actor, peer) {
            return step;
        }
    }
    Step::Done
}
