//! Where a monitor stands: not connected, or at its end of a connection.

ghost use Rattle.std.specs.Prelude.{◌≡◌, OnErr, OnOk, Some, None, true, IfSome, IsNone};
ghost use Rattle.tk_monitor.specs.Monitored.{IsFeederOf, Raises};
ghost use Rattle.tk_monitor.specs.Stepped.{growing};
ghost use Rattle.tk_trail.specs.Growing.{grown};
ghost use Rattle.tk_trail.specs.Legal.{HasNext, IsLegal};
ghost use Rattle.tk_trail.specs.Setup.{IsSetup};
ghost use Rattle.tk_watch.specs.Standing.{over};
ghost use Rattle.tk_watch.specs.Turning.{LooksAt};

use crate::cause::Cause;
use crate::look::look_within;
use crate::tally::Tally;
use crate::turned::Turned;
use std::marker::Model;
use tk_base::{Feeder, NoMemory};
use tk_input::Change;
use tk_monitor::{Monitor, Raised};
use tk_port::Port;
use tk_wire::Wire;

/// A monitor that is not connected, or one at its end of a connection, which may have ended.
#[derive(Drop)]
enum Form<W: Wire> {
    Idle(Monitor),
    Joined(Port<W>, Tally),
}

/// A monitor, connected or not.
#[derive(Drop)]
pub(crate) struct Standing<W: Wire> {
    form: Form<W>,
}

impl<W: Wire> Model for Standing<W> {
    ghost use Rattle.tk_watch.specs.Standing.{StandingView};
    ghost use Rattle.tk_watch.specs.StandingInside.{IsTallied, standing_in};

    ghost Value = { StandingView W };

    ghost view = { λ s. standing_in s.form };

    ghost invariant = { λ s. IsTallied s.form };
}

impl<W: Wire> Standing<W> {
    /// A monitor that is not connected.
    pub fn idle(monitor: Monitor) -> Standing<W>
        ensures { result ≡ record { monitor = monitor; port = None } }
    {
        Standing {
            form: Form::Idle(monitor),
        }
    }

    /// A monitor at its end of a connection.
    pub fn joined(port: Port<W>) -> Standing<W>
        ensures { result ≡ record { monitor = port.monitor; port = Some port } }
    {
        Standing {
            form: Form::Joined(port, Tally::new()),
        }
    }

    /// Its monitor.
    pub fn monitor(&self) -> &Monitor
        ensures { result.now ≡ self.now.monitor }
    {
        match &self.form {
            Form::Idle(monitor) => monitor,
            Form::Joined(port, _) => port.monitor(),
        }
    }

    /// Its end of the connection, where there is one.
    pub fn port(&self) -> Option<&Port<W>>
        ensures none { IsNone self.now.port → IsNone result }
        ensures some { IfSome result (λ port. self.now.port ≡ Some port.now) }
    {
        match &self.form {
            Form::Idle(_) => None,
            Form::Joined(port, _) => Some(port),
        }
    }

    /// Puts a change in front of the last record of a stream, as `Monitor::grow` does.
    pub fn grow(&mut self, f: Feeder, change: Change) -> Result<(), NoMemory>
        requires next { HasNext self.old.monitor.setup self.old.monitor.trail f.0 }
        requires limits { IsSetup (grown self.old.monitor.setup f.0 (change.obj.0, change.by)) }
        ensures ok { OnOk result (self.new ≡ over self.old (growing self.old.monitor f.0 (change.obj.0, change.by))) }
        ensures err { OnErr result (self.new ≡ self.old) }
    {
        match &mut self.form {
            Form::Idle(monitor) => monitor.grow(f, change),
            Form::Joined(port, _) => port.grow(f, change),
        }
    }

    /// Counts the next record of a stream, without memory.
    pub fn raise(&mut self, f: Feeder) -> Raised
        requires { IsFeederOf self.old.monitor.setup f.0 }
        ensures answer { Raises self.old.monitor f result self.new.monitor }
        ensures rest { self.new ≡ over self.old self.new.monitor }
        ensures legal { IsLegal self.new.monitor.setup self.new.monitor.trail }
    {
        match &mut self.form {
            Form::Idle(monitor) => monitor.raise(f),
            Form::Joined(port, _) => port.raise(f),
        }
    }

    /// One look at the connection, where there is one.
    pub fn turn(&mut self) -> Turned
        ensures idle { self.old.port ≡ None → (result ≡ Turned.Left Cause.Full) × (self.new ≡ self.old) }
        ensures looks { LooksAt result self.old self.new }
    {
        match &mut self.form {
            Form::Idle(_) => return Turned::Left(Cause::Full),
            Form::Joined(port, tally) => look_within(port, tally),
        }
    }

    /// Shuts the connection, without memory.
    pub fn leave(&mut self)
        ensures monitor { self.new.monitor ≡ self.old.monitor }
        ensures shut { IfSome self.new.port (λ p. p.link.shut ≡ true) }
    {
        match &mut self.form {
            Form::Idle(_) => {}
            Form::Joined(port, _) => port.halt(),
        }
    }
}
