ghost use Rattle.std.specs.Prelude.{◌≡◌, ◌<◌, ◌≤◌, false, length, true};
ghost use Rattle.tk_host.specs.Room.{HasRoom, IsFull, most_bytes};
ghost use Rattle.tk_host.specs.Tallying.{IsCounted};
ghost use Rattle.tk_ledger.specs.Ledger.{bytes_in as bytes_of_entry};

use tk_journal::Noted;

/// The most bytes that the frames of a journal may have together before a turn: 256 MiB.
const MOST_BYTES: u128 = 268_435_456;

/// The bytes of the frames of a journal, added up as it grows.
#[derive(Clone, Copy, Debug)]
pub struct Tally {
    /// How many entries are counted.
    pub entries: usize,
    /// The bytes of their frames.
    pub bytes: u128,
}

/// How many bytes the frame of an entry takes in version 1, if it passes one.
fn bytes_in(entry: &Noted) -> u128
    ensures { result ≡ bytes_of_entry entry.now }
{
    match entry {
        Noted::Got(_, frame) => frame.get().size(),
        Noted::Sent(_, frame) => frame.get().size(),
        Noted::Published(..) | Noted::Tuned(..) => 0,
    }
}

impl Tally {
    /// Nothing is counted.
    pub fn new() -> Tally
        ensures { result ≡ record { entries = 0; bytes = 0 } }
    {
        Tally {
            entries: 0,
            bytes: 0,
        }
    }

    /// Counts the entries of a journal that are new.
    fn count(&mut self, journal: &[Noted])
        requires { IsCounted journal.now self.old }
        ensures counted { IsCounted journal.now self.new }
        ensures all { self.new.entries ≡ length journal.now }
    {
        for i in self.entries..journal.len() {
            self.bytes = self.bytes.saturating_add(bytes_in(&journal[i]));
        }
        self.entries = journal.len();
    }

    /// Whether there are too many.
    fn is_full(&self) -> bool
        ensures full { result ≡ true → most_bytes < self.now.bytes }
        ensures room { result ≡ false → self.now.bytes ≤ most_bytes }
    {
        self.bytes > MOST_BYTES
    }

    /// Counts the entries of a journal that are new, and says whether it has room for a turn. Costs a look at each of these.
    pub fn weigh(&mut self, journal: &[Noted]) -> bool
        requires { IsCounted journal.now self.old }
        ensures counted { IsCounted journal.now self.new }
        ensures room { result ≡ true → HasRoom journal.now }
        ensures full { result ≡ false → IsFull journal.now }
    {
        self.count(journal);
        if self.is_full() {
            return false;
        }
        true
    }
}
