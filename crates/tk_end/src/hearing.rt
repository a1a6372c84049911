//! What the taking of frames, and a whole hearing, answer.

use tk_frames::BadFrame;

/// Why no further frame is taken now.
#[derive(Debug, Drop)]
pub enum Step<R> {
    /// The actor takes no more.
    Done,
    /// None is whole.
    Part,
    /// The next one is refused.
    Refused(R),
    /// The next bytes are none.
    Bad(BadFrame),
    NoMemory,
}

/// Why a hearing ended.
#[derive(Debug, Drop)]
pub enum Heard<R> {
    /// No frame is whole, and nothing more waits.
    Quiet,
    /// As many pieces came as one hearing takes.
    More,
    /// The actor takes no more frames.
    Done,
    /// The wire failed.
    Failed,
    /// The wire ended.
    Ended,
    /// The next frame is refused.
    Refused(R),
    /// The next bytes are no frame.
    Bad(BadFrame),
    NoMemory,
}
