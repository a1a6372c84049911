ghost use Rattle.std.specs.Prelude.{◌≡◌, ◌↔◌, ◌≤◌, ◌-◌, IsTrue, Some, unwrap_or};
ghost use Rattle.std.specs.Duration.{as_nanos};
ghost use Rattle.std.specs.Time.{instant_nanos};

use std::time::{Clock, Duration, Instant};

/// What a look at the clock says of a connection.
#[derive(Clone, Copy, Debug, PartialEq, Eq)]
pub(crate) enum Look {
    Lively,
    /// Nothing went for a quarter of the silence.
    Quiet,
    /// Nothing came for the silence, or the clock failed.
    Silent,
}

/// How long nothing came over a connection, and how long nothing went.
#[derive(Drop)]
pub(crate) struct Vigil<H: Clock + Copy> {
    clock: H,
    silence: Duration,
    quarter: Duration,
    // When it was first seen that nothing came any more, and that nothing went. None where something did since the last look.
    came: Option<Instant>,
    went: Option<Instant>,
}

// Whether nothing happened for so long, as seen at this moment. The first look that sees nothing begins to count.
fn lasts(since: &mut Option<Instant>, now: Instant, span: Duration) -> bool
    ensures since { since.new ≡ Some (unwrap_or since.old now) }
    ensures value { IsTrue result ↔ (as_nanos span ≤ instant_nanos now - instant_nanos (unwrap_or since.old now)) }
{
    let start = since.unwrap_or(now);
    *since = Some(start);
    span.as_nanos() <= now.duration_since(start).as_nanos()
}

impl<H: Clock + Copy> Vigil<H> {
    /// A vigil over a connection that is new, where a peer of which nothing came for so many seconds is lost.
    pub(crate) fn new(clock: H, silence: u64) -> Vigil<H> {
        Vigil {
            clock,
            silence: Duration::from_secs(silence),
            quarter: Duration::from_millis(silence.saturating_mul(250)),
            came: None,
            went: None,
        }
    }

    /// Something came.
    pub(crate) fn note_came(&mut self) {
        self.came = None;
    }

    /// Something went.
    pub(crate) fn note_went(&mut self) {
        self.went = None;
    }

    /// Looks at the clock.
    pub(crate) fn look(&mut self) -> Look {
        let Ok(now) = Instant::now(&self.clock) else {
            return Look::Silent;
        };
        if lasts(&mut self.came, now, self.silence) {
            return Look::Silent;
        }
        if lasts(&mut self.went, now, self.quarter) {
            return Look::Quiet;
        }
        Look::Lively
    }
}
