//! What is left of the room for the frames of a trail.

ghost use Rattle.std.specs.Prelude.{◌≡◌, ◌+◌, ◌<◌, ◌≤◌, true, false, length, take};
ghost use Rattle.tk_watch.specs.Tally.{IsTally, left_behind as behind};
ghost use Rattle.tk_watch.specs.TrailSize.{entry_size, frames_size, most_bytes};

use tk_trail::Entry;

/// The most bytes that the frames of a trail may have, by their lengths in version 1, and one more.
const MOST_AND_ONE: u128 = 268_435_457;

/// What is left of the room for the frames of a trail, behind the entries that were looked at.
#[derive(Drop)]
pub(crate) struct Tally {
    pub(crate) seen: usize,
    // With one byte more than there may be, so that nothing is left where there are too many.
    pub(crate) left: u128,
}

/// How many bytes the frame of an entry has.
fn size_of(entry: &Entry) -> u128
    ensures { result ≡ entry_size entry.now }
{
    match entry {
        Entry::Raised(_) => 0,
        Entry::Took(frame) => frame.get().size(),
        Entry::Sent(frame) => frame.get().size(),
    }
}

/// What is left behind a trail, where so much is left behind the entries in front of a place. Costs a look at each other.
fn left_behind(trail: &[Entry], from: usize, left: u128) -> u128
    requires within { from ≤ length trail.now }
    requires left { left ≡ behind (take from trail.now) }
    ensures { result ≡ behind trail.now }
{
    let mut left = left;
    for i in from..trail.len() {
        left = left.saturating_sub(size_of(&trail[i]));
    }
    left
}

impl Tally {
    /// Nothing was looked at.
    pub(crate) fn new() -> Tally
        ensures seen { result.seen ≡ 0 }
        ensures left { result.left ≡ most_bytes + 1 }
    {
        Tally {
            seen: 0,
            left: MOST_AND_ONE,
        }
    }

    /// Looks at what came behind, and answers whether the frames have too many bytes.
    pub(crate) fn is_over(&mut self, trail: &[Entry]) -> bool
        requires { IsTally self.old trail.now }
        ensures kept { IsTally self.new trail.now }
        ensures over { result ≡ true → most_bytes < frames_size trail.now }
        ensures within { result ≡ false → frames_size trail.now ≤ most_bytes }
    {
        self.left = left_behind(trail, self.seen, self.left);
        self.seen = trail.len();
        self.left == 0
    }
}
