//! Ticks by a clock.

ghost use Rattle.std.specs.Prelude.{◌≡◌, ◌≤◌, ◌-◌, ◌/◌};
ghost use Rattle.std.specs.Time.{instant_nanos};
ghost use Rattle.tk_input.specs.Files.{one_more};
ghost use Rattle.tk_recent.specs.Beats.{periods};

use std::marker::Model;
use std::time::Instant;

/// Ends a tick whenever so many seconds have passed, by a clock that never goes back. Ticks that were missed are due one by one.
#[derive(Drop)]
pub struct Metronome {
    begun: Instant,
    seconds: u32,
    ended: u64,
}

impl Model for Metronome {
    ghost use Rattle.std.specs.Time.{instant_nanos};
    ghost use Rattle.std.specs.Prelude.{◌≤◌};
    ghost use Rattle.tk_recent.specs.Beats.{Beats};

    ghost Value = { Beats };

    ghost view = { λ m. record { begun = instant_nanos m.begun; seconds = m.seconds; ended = m.ended } };

    ghost invariant = { λ m. 1 ≤ m.seconds };
}

impl Metronome {
    /// The first tick begins now, and each has so many seconds.
    pub fn new(now: Instant, seconds: u32) -> Metronome
        requires { 1 ≤ seconds }
        ensures { result ≡ record { begun = instant_nanos now; seconds = seconds; ended = 0 } }
    {
        Metronome {
            begun: now,
            seconds,
            ended: 0,
        }
    }

    /// How many ticks should have ended by now and did not.
    pub fn due(&self, now: Instant) -> u64
        ensures { result ≡ periods self.now (instant_nanos now) - self.now.ended }
    {
        let passed = now.duration_since(self.begun).as_secs();
        (passed / u64::from(self.seconds)).saturating_sub(self.ended)
    }

    /// One more tick has ended.
    pub fn end_tick(&mut self)
        ensures { self.new ≡ record self.old { ended = one_more self.old.ended } }
    {
        self.ended = self.ended.saturating_add(1);
    }
}
