use tk_base::Mon;
use tk_wire::{Beginning, Greeting};

/// A monitor's seat in a session: it has joined with its greeting, or it is missing and a stand-in sits there.
#[derive(Debug, Drop)]
pub enum Seat {
    Joined(Greeting),
    Missing(Mon),
}

impl Seat {
    ghost use Rattle.std.specs.Prelude.{◌≡◌};
    ghost use Rattle.tk_host.specs.Seats.{beginnings_in, joins, misses};

    /// Whether this monitor has joined there.
    pub fn joins(&self, mon: u64) -> bool
        ensures { result ≡ joins mon self.now }
    {
        match self {
            Seat::Joined(greeting) => u64::from(greeting.mon.0) == mon,
            Seat::Missing(_) => false,
        }
    }

    /// Whether a stand-in sits there for this monitor.
    pub fn misses(&self, mon: u64) -> bool
        ensures { result ≡ misses mon self.now }
    {
        match self {
            Seat::Joined(_) => false,
            Seat::Missing(missing) => u64::from(missing.0) == mon,
        }
    }

    /// How the streams of its monitor began; no stream is known of one that is missing.
    pub fn beginnings(&self) -> &[Beginning]
        ensures { result.now ≡ beginnings_in self.now }
    {
        match self {
            Seat::Joined(greeting) => greeting.beginnings.as_slice(),
            Seat::Missing(_) => &[],
        }
    }
}
