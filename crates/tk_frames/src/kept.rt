//! How journals and trails keep a frame, in little room.

ghost use Rattle.std.specs.Prelude.{◌≡◌, IfOk, IfErr};

use crate::frame::Frame;
use std::alloc::Global;
use std::marker::Model;

/// A frame behind a pointer, so that an entry which keeps one takes 16 bytes. Contracts see the frame.
#[derive(Debug, Drop)]
pub struct KeptFrame {
    frame: Box<Frame>,
}

impl Model for KeptFrame {
    ghost use Rattle.tk_frames.specs.declared.frame.Frame.{Frame};

    ghost Value = { Frame };

    ghost view = { λ k. k.frame.value };
}

impl KeptFrame {
    /// Takes the room for one frame, and hands the frame back where there is none.
    pub fn new(alloc: Global, frame: Frame) -> Result<KeptFrame, Frame>
        ensures ok { IfOk result (λ k. k ≡ frame) }
        ensures err { IfErr result (λ f. f ≡ frame) }
    {
        match Box::new(alloc, frame) {
            Ok(frame) => Ok(KeptFrame { frame }),
            Err(failed) => Err(failed.value),
        }
    }

    /// The frame, lent.
    pub fn get(&self) -> &Frame
        ensures { result.now ≡ self.now }
    {
        &self.frame
    }

    /// The frame itself.
    pub fn into_frame(self) -> Frame
        ensures { result ≡ self }
    {
        Box::into_inner(self.frame)
    }
}
