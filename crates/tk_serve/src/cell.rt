//! Ports under locks, named so that proofs know which port is found behind one.

ghost use Rattle.std.specs.Prelude.{◌≡◌, ◌↔◌, ℕ, true, false, None, IfNone, IfSome};
ghost use Rattle.tk_base.specs.Settings.{Setup};
ghost use Rattle.tk_monitor.specs.Monitored.{IsFeederOf, Raises};
ghost use Rattle.tk_trail.specs.Setup.{MonitorSetup};
ghost use Rattle.tk_trail.specs.Readings.{is_stopped};
ghost use Rattle.tk_end.specs.Link.{IsShut};
ghost use Rattle.tk_port.specs.Port.{Turns};
ghost use Rattle.tk_serve.specs.Names.{no_settings, no_setup};

use std::marker::{Brand, PhantomData};
use std::sync::Mutex;
use tk_base::Feeder;
use tk_monitor::Raised;
use tk_port::{Port, Turn};
use tk_wire::Wire;

/// Which port lies under a lock. A name has no calls: it exists in proofs alone, and the call that locks a port picks it.
pub trait PortName {
    /// The settings of its monitor.
    ghost settings: { Setup };

    /// The number of its monitor, with its catalogue's size, its parts and its starting places.
    ghost setup: { MonitorSetup };

    /// The version of its frames.
    ghost version: { ℕ };
}

impl PortName for Brand {
    ghost settings = { no_settings };

    ghost setup = { no_setup };

    ghost version = { 1 };
}

/// A port that has what its name says, whenever its lock is got.
#[derive(Drop)]
pub struct Shared<W: Wire, N: PortName> {
    pub port: Port<W>,
    of: PhantomData<N>,
    pub ghost settings_are: { port.monitor.settings ≡ N.settings },
    pub ghost setup_is: { port.monitor.setup ≡ N.setup },
    pub ghost version_is: { port.link.version ≡ N.version },
}

/// A port under a lock.
pub type PortCell<W, N> = Mutex<Shared<W, N>>;

impl<W: Wire, N: PortName> Shared<W, N> {
    /// A port behind a lock that nobody holds.
    pub fn new(port: Port<W>) -> Shared<W, N>
        requires settings { port.monitor.settings ≡ N.settings }
        requires setup { port.monitor.setup ≡ N.setup }
        requires version { port.link.version ≡ N.version }
        ensures { result.port ≡ port }
    {
        Shared {
            port,
            of: PhantomData,
        }
    }

    /// Counts the next change of a feeder, where the port is not halted.
    pub fn raise(&mut self, f: Feeder) -> Option<Raised>
        requires { IsFeederOf N.setup f.0 }
        ensures halted { (result ≡ None) ↔ (self.old.port.link.shut ≡ true) }
        ensures none { IfNone result (self.new.port ≡ self.old.port) }
        ensures some { IfSome result (λ raised. Raises self.old.port.monitor f raised self.new.port.monitor) }
        ensures rest { self.new.port ≡ record self.old.port { monitor = self.new.port.monitor } }
    {
        let halted = self.port.halted();
        if halted {
            None
        } else {
            Some(self.port.raise(f))
        }
    }

    /// One turn, where the port is not halted.
    pub fn turn(&mut self) -> Option<Turn>
        ensures halted { (result ≡ None) ↔ (self.old.port.link.shut ≡ true) }
        ensures none { IfNone result (self.new.port ≡ self.old.port) }
        ensures some { IfSome result (λ turn. Turns turn self.old.port self.new.port) }
    {
        // The port is read for its clause, that it is open where its wire is.
        let _ = self.port.monitor();
        if self.port.halted() {
            None
        } else {
            Some(self.port.turn())
        }
    }

    /// Halts the port unless it took Stop, and says whether it did so.
    pub fn leave(&mut self) -> bool
        ensures stopped { result ≡ is_stopped self.old.port.monitor.trail }
        ensures stays { result ≡ true → self.new.port ≡ self.old.port }
        ensures shut { result ≡ false → IsShut self.old.port.link self.new.port.link }
        ensures monitor { self.new.port.monitor ≡ self.old.port.monitor }
    {
        let stopped = self.port.monitor().stopped();
        if !stopped {
            self.port.halt();
        }
        stopped
    }
}
