//! The answers by which the caller of a port knows whether to go on.

use tk_frames::BadFrame;
use tk_trail::MonitorRefusal;

/// What a turn of a port answers.
#[derive(Clone, Copy, Debug, PartialEq, Eq)]
pub enum Turn {
    /// Every whole frame was taken, and nothing more waits.
    Quiet,
    /// 64 pieces came; there may be more.
    More,
    /// Stop was taken.
    Stopped,
    /// The wire failed, or ended before Stop.
    Failed,
    /// The next frame is refused, for another cause than memory.
    Refused(MonitorRefusal),
    /// The next bytes are no frame.
    Bad(BadFrame),
    NoMemory,
}
