//! What a trail is a list of: changes counted, frames taken and frames sent.

use tk_base::Feeder;
use tk_frames::KeptFrame;

/// One thing that a monitor did. It takes 16 bytes, since there is one for each update.
#[derive(Debug, Drop)]
pub enum Entry {
    /// The next change of this feeder counts from here on.
    Raised(Feeder),
    /// A frame of the coordinator was taken.
    Took(KeptFrame),
    /// A frame was sent to the coordinator.
    Sent(KeptFrame),
}
