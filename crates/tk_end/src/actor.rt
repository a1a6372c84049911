//! What an end of a connection asks of its node, which takes frames and has some to send.

ghost use Rattle.std.specs.Prelude.{◌≡◌, ◌<◌, ◌∷◌, ◌++◌, ℕ, [], List, Bool, Option, Some, OnOk, OnErr, length, slice_get};
ghost use Rattle.tk_base.specs.History.{IsFront};
ghost use Rattle.tk_frames.specs.declared.frame.Frame.{Frame};
ghost use Rattle.tk_end.specs.Actor.{AnswersTake, CanBeSent};

use tk_base::Mon;
use tk_frames::Frame;

/// A frame that was not taken, and is handed back.
#[derive(Debug, Drop)]
pub enum Declined<R> {
    Refused(R, Frame),
    NoMemory(Frame),
}

/// Who takes the frames of its peers, and has frames for each of them.
pub trait Actor {
    /// Why a frame is refused.
    type Refusal: Drop;

    /// Whether there is such a peer.
    ghost IsPeer: { ℕ → Self → Type 0 };

    /// The frames that were taken from a peer, and those that are for it.
    ghost heard: { ℕ → Self → List Frame };

    ghost said: { ℕ → Self → List Frame };

    /// Whether it takes no more frames of a peer.
    ghost is_done: { ℕ → Self → Bool };

    /// The first reason against a frame of a peer, if there is one, and the actor once it has taken the frame.
    ghost refusal_of: { ℕ → Frame → Self → Option Self.Refusal };

    ghost after: { ℕ → Frame → Self → Self };

    /// Takes a frame of a peer, with all that it brings about.
    fn take(&mut self, peer: Mon, frame: Frame) -> Result<(), Declined<Self::Refusal>>
        requires { IsPeer peer.0 self.old }
        ensures answer { AnswersTake (refusal_of peer.0 frame self.old) frame result }
        ensures ok { OnOk result (self.new ≡ after peer.0 frame self.old) }
        ensures err { OnErr result (self.new ≡ self.old) }
        ensures heard { OnOk result (heard peer.0 self.new ≡ heard peer.0 self.old ++ frame ∷ []) }
        ensures said { IsFront (said peer.0 self.old) (said peer.0 self.new) }
        ensures peer { IsPeer peer.0 self.new };

    /// Whether it takes no more frames of the peer.
    fn done(&self, peer: Mon) -> bool
        requires { IsPeer peer.0 self.now }
        ensures { result ≡ is_done peer.0 self.now };

    /// How many frames there are for the peer so far.
    fn count(&self, peer: Mon) -> usize
        requires { IsPeer peer.0 self.now }
        ensures { result ≡ length (said peer.0 self.now) };

    /// The frame at a place from 0 among those for the peer.
    fn frame_at(&self, peer: Mon, i: usize) -> &Frame
        requires peer { IsPeer peer.0 self.now }
        requires within { i < length (said peer.0 self.now) }
        ensures value { slice_get (said peer.0 self.now) i ≡ Some result.now }
        ensures sent { CanBeSent result.now };
}
