//! The monitors at which a world may have something to do, found in constant time.

ghost use Rattle.std.specs.Prelude.{◌≡◌, ℕ, ◌≤◌, ◌==◌, ◌||◌, ◌&&◌, not, Bool, true, false, IfSome};
ghost use Rattle.tk_world.specs.Work.{has, is_sent};
ghost use Rattle.tk_world.specs.World.{IsBefore};

use tk_base::Mon;
use tk_journal::Noted;

/// How many monitors there can be.
const MOST: u32 = 64;

/// A set of monitors, by a bit for each.
#[derive(Clone, Copy, Debug)]
pub struct Work {
    bits: u64,
}

impl Work {
    /// No monitor.
    pub fn none() -> Work
        ensures { (q : ℕ) → has result q ≡ false }
    {
        Work { bits: 0 }
    }

    /// Whether there is none.
    pub fn is_empty(&self) -> bool
        ensures { result ≡ true → (q : ℕ) → has self.now q ≡ false }
    {
        self.bits == 0
    }

    /// Whether a monitor is one of them.
    pub fn contains(&self, mon: Mon) -> bool
        ensures { result ≡ has self.now mon.0 }
    {
        let bits = self.bits;
        if mon.0 == 0 || mon.0 > MOST {
            return false;
        }
        (bits >> (mon.0 - 1)) & 1 == 1
    }

    /// Adds a monitor.
    pub fn insert(&mut self, mon: Mon)
        requires some { 1 ≤ mon.0 }
        requires within { mon.0 ≤ 64 }
        ensures { (q : ℕ) → has self.new q ≡ (q == mon.0 || has self.old q) }
    {
        self.bits |= 1 << (mon.0 - 1);
    }

    /// Takes a monitor out.
    pub fn remove(&mut self, mon: Mon)
        requires some { 1 ≤ mon.0 }
        requires within { mon.0 ≤ 64 }
        ensures { (q : ℕ) → has self.new q ≡ (not (q == mon.0) && has self.old q) }
    {
        let bits = self.bits;
        self.bits = bits & !(1 << (mon.0 - 1));
    }

    /// Adds a monitor where that is wanted.
    pub fn insert_if(&mut self, mon: Mon, is_wanted: bool)
        requires some { 1 ≤ mon.0 }
        requires within { mon.0 ≤ 64 }
        ensures { (q : ℕ) → has self.new q ≡ (is_wanted && q == mon.0 || has self.old q) }
    {
        if is_wanted {
            self.insert(mon);
        }
    }

    /// Takes a monitor out where that is wanted.
    pub fn remove_if(&mut self, mon: Mon, is_wanted: bool)
        requires some { 1 ≤ mon.0 }
        requires within { mon.0 ≤ 64 }
        ensures { (q : ℕ) → has self.new q ≡ (not (is_wanted && q == mon.0) && has self.old q) }
    {
        if is_wanted {
            self.remove(mon);
        }
    }

    /// Inserts the monitors to which some entries send.
    pub fn insert_sent(&mut self, entries: &[Noted])
        requires { (q : ℕ) → is_sent entries.now q ≡ true → (1 ≤ q) × (q ≤ 64) }
        ensures { (q : ℕ) → has self.new q ≡ (has self.old q || is_sent entries.now q) }
    {
        for entry in entries {
            if let Noted::Sent(to, _) = entry {
                self.insert(*to);
            }
        }
    }

    /// The least of them that is at or above a number.
    pub fn next(&self, from: Mon) -> Option<Mon>
        ensures found { IfSome result (λ q. (from.0 ≤ q.0) × (has self.now q.0 ≡ true)) }
        ensures skipped { (q : ℕ) → from.0 ≤ q → IsBefore q result → has self.now q ≡ false }
    {
        let bits = self.bits;
        let below = from.0.saturating_sub(1);
        if below >= MOST {
            return None;
        }
        let rest = bits & (u64::MAX << below);
        if rest == 0 {
            None
        } else {
            Some(Mon(rest.trailing_zeros() + 1))
        }
    }
}
