//! How a link hears: it pulls pieces off its wire, and an actor takes their frames.

ghost use Rattle.std.specs.Prelude.{◌≡◌, false, IfNone, IfSome, OnSome, unwrap_or};
ghost use Rattle.tk_frames.specs.Answer.{Answers};
ghost use Rattle.tk_frames.specs.declared.answer.Next.TheVariants as n;
ghost use Rattle.tk_wire.specs.Buffered.{Pulls, counts_pulled};
ghost use Rattle.tk_end.specs.Hearing.{CountsHeard, Ends, Hears, TakesOnce, least_of};
ghost use Rattle.tk_end.specs.Link.{Keeps};

use crate::actor::Actor;
use crate::hearing::{Heard, Step};
use crate::link::Link;
use crate::taking::{take_all, take_front};
use tk_base::Mon;
use tk_wire::{Pulled, Wire};

/// How many pieces one hearing takes at most.
const PIECES: usize = 64;

impl<W: Wire> Link<W> {
    fn pull(&mut self) -> Pulled
        ensures pulls { Pulls result self.old.tells self.old.unread self.new.unread self.old.traffic self.new.traffic }
        ensures counted { self.new.counts ≡ counts_pulled result self.old.counts }
        ensures keeps { Keeps self.old self.new }
    {
        self.inbox.pull(&mut self.wire)
    }

    /// Lets the actor take every whole frame; More says that no whole one is left.
    fn hear_whole<A: Actor>(&mut self, actor: &mut A, peer: Mon) -> Heard<A::Refusal>
        requires { A.IsPeer peer.0 actor.old }
        ensures hears { Hears A.refusal_of A.after A.heard A.said peer.0 0 self.old self.new actor.old actor.new }
        ensures ends { Ends A.refusal_of A.is_done peer.0 self.new actor.new result }
        ensures part { result ≡ Heard.More → Answers self.new.version self.new.unread n.Part }
        ensures counts { self.new.counts ≡ self.old.counts }
        ensures counted { CountsHeard result self.old.counts self.new.counts }
        ensures peer { A.IsPeer peer.0 actor.new }
    {
        match take_all(&mut self.inbox, actor, peer) {
            Step::Done => Heard::Done,
            Step::Part => Heard::More,
            Step::Refused(why) => Heard::Refused(why),
            Step::Bad(fault) => Heard::Bad(fault),
            Step::NoMemory => Heard::NoMemory,
        }
    }

    /// Lets the actor take every whole frame, and then pulls one piece, or says why none came.
    fn hear_piece<A: Actor>(&mut self, actor: &mut A, peer: Mon) -> Option<Heard<A::Refusal>>
        requires { A.IsPeer peer.0 actor.old }
        ensures some { OnSome result (Hears A.refusal_of A.after A.heard A.said peer.0 0 self.old self.new actor.old actor.new) }
        ensures none { IfNone result (Hears A.refusal_of A.after A.heard A.said peer.0 1 self.old self.new actor.old actor.new) }
        ensures ends { IfSome result (Ends A.refusal_of A.is_done peer.0 self.new actor.new) }
        ensures no_more { IfSome result (λ heard. least_of heard ≡ 0) }
        ensures counted { CountsHeard (unwrap_or result Heard.More) self.old.counts self.new.counts }
        ensures peer { A.IsPeer peer.0 actor.new }
    {
        match self.hear_whole(actor, peer) {
            Heard::More => {}
            heard => return Some(heard),
        }
        match self.pull() {
            Pulled::Got(_) => None,
            Pulled::NotYet => Some(Heard::Quiet),
            Pulled::End => Some(Heard::Ended),
            Pulled::Failed => Some(Heard::Failed),
            Pulled::NoMemory => Some(Heard::NoMemory),
        }
    }

    /// Pulls at most 64 pieces, and lets the actor take their frames.
    pub fn hear<A: Actor>(&mut self, actor: &mut A, peer: Mon) -> Heard<A::Refusal>
        requires { A.IsPeer peer.0 actor.old }
        ensures hears { Hears A.refusal_of A.after A.heard A.said peer.0 (least_of result) self.old self.new actor.old actor.new }
        ensures ends { Ends A.refusal_of A.is_done peer.0 self.new actor.new result }
        ensures part { result ≡ Heard.More → Answers self.new.version self.new.unread n.Part }
        ensures counted { CountsHeard result self.old.counts self.new.counts }
        ensures peer { A.IsPeer peer.0 actor.new }
    {
        let mut pieces = 0;
        while pieces < PIECES {
            if let Some(heard) = self.hear_piece(actor, peer) {
                return heard;
            }
            pieces += 1;
        }
        self.hear_whole(actor, peer)
    }

    /// Lets the actor take the frame at the front, or says why it takes none; None says that none is whole.
    fn hear_front<A: Actor>(&mut self, actor: &mut A, peer: Mon) -> Option<Heard<A::Refusal>>
        requires peer { A.IsPeer peer.0 actor.old }
        requires not_done { A.is_done peer.0 actor.old ≡ false }
        ensures hears { Hears A.refusal_of A.after A.heard A.said peer.0 0 self.old self.new actor.old actor.new }
        ensures ends { IfSome result (Ends A.refusal_of A.is_done peer.0 self.new actor.new) }
        ensures once { IfSome result (TakesOnce A.refusal_of A.after peer.0 actor.old actor.new) }
        ensures open { result ≡ Some Heard.More → A.is_done peer.0 actor.new ≡ false }
        ensures part { IfNone result (Answers self.new.version self.new.unread n.Part) }
        ensures none { IfNone result ((self.new.unread ≡ self.old.unread) × (actor.new ≡ actor.old)) }
        ensures counts { self.new.counts ≡ self.old.counts }
        ensures counted { CountsHeard (unwrap_or result Heard.More) self.old.counts self.new.counts }
        ensures peer { A.IsPeer peer.0 actor.new }
    {
        match take_front(&mut self.inbox, actor, peer) {
            None if actor.done(peer) => Some(Heard::Done),
            None => Some(Heard::More),
            Some(Step::Part) => None,
            Some(Step::Done) => unreachable!(),
            Some(Step::Refused(why)) => Some(Heard::Refused(why)),
            Some(Step::Bad(fault)) => Some(Heard::Bad(fault)),
            Some(Step::NoMemory) => Some(Heard::NoMemory),
        }
    }

    /// Pulls until a frame is whole, and lets the actor take that one; More says that it has.
    pub fn hear_one<A: Actor>(&mut self, actor: &mut A, peer: Mon) -> Heard<A::Refusal>
        requires peer { A.IsPeer peer.0 actor.old }
        requires not_done { A.is_done peer.0 actor.old ≡ false }
        ensures hears { Hears A.refusal_of A.after A.heard A.said peer.0 0 self.old self.new actor.old actor.new }
        ensures ends { Ends A.refusal_of A.is_done peer.0 self.new actor.new result }
        ensures once { TakesOnce A.refusal_of A.after peer.0 actor.old actor.new result }
        ensures open { result ≡ Heard.More → A.is_done peer.0 actor.new ≡ false }
        ensures counted { CountsHeard result self.old.counts self.new.counts }
        ensures peer { A.IsPeer peer.0 actor.new }
    {
        loop {
            if let Some(heard) = self.hear_front(actor, peer) {
                return heard;
            }
            match self.pull() {
                Pulled::Got(_) => {}
                Pulled::NotYet => return Heard::Quiet,
                Pulled::End => return Heard::Ended,
                Pulled::Failed => return Heard::Failed,
                Pulled::NoMemory => return Heard::NoMemory,
            }
        }
    }
}
