//! How a watch begins a connection, looks at it, and leaves it.

ghost use Rattle.std.specs.Prelude.{◌≡◌, None, true, false, length, IfOk, IfSome, OnErr, OnOk};
ghost use Rattle.tk_trail.specs.Readings.{places_at};
ghost use Rattle.tk_wire.specs.Greeting.{NamesMonitor, TellsStreams};
ghost use Rattle.tk_wire.specs.Net.{IsNew};
ghost use Rattle.tk_compact.specs.Begun.{begun};
ghost use Rattle.tk_watch.specs.Greeted.{IsGreetingOf, beginnings_of};
ghost use Rattle.tk_watch.specs.Turning.{JoinsAnew};
ghost use Rattle.tk_watch.specs.Watch.{Begins, IsWatch, Turns};

use crate::cause::Cause;
use crate::standing::Standing;
use crate::turned::Turned;
use crate::watch::Watch;
use std::alloc::Global;
use tk_base::{NoMemory, Places};
use tk_compact::{begin_anew, size_of_values};
use tk_monitor::Monitor;
use tk_port::Port;
use tk_wire::{Beginning, Dialed, Greeting, Wire};

/// Where streams begin that gave so many records each, of a monitor that starts at these places.
fn beginnings(alloc: Global, counts: &[u64], starts: &Places) -> Result<Vec<Beginning>, NoMemory>
    requires { length starts.now ≡ length counts.now }
    ensures count { IfOk result (λ list. length list.items ≡ length counts.now) }
    ensures value { IfOk result (λ list. list.items ≡ beginnings_of counts.now starts.now) }
{
    let mut list = Vec::with_capacity(alloc, counts.len())?;
    for i in 0..counts.len() {
        list.push(Beginning {
            count: counts[i],
            start: starts.at(i),
        })?;
    }
    Ok(list)
}

impl<W: Wire> Watch<W> {
    /// One look at the connection: what came is taken, and what is due is said.
    pub fn turn(&mut self) -> Turned
        ensures turns { Turns result self.old self.new }
        ensures idle { self.old.port ≡ None → (result ≡ Turned.Left Cause.Full) × (self.new ≡ self.old) }
        ensures kept { IsWatch self.new }
    {
        self.standing.turn()
    }

    /// Shuts the connection, without memory. The monitor goes on.
    pub fn leave(&mut self)
        ensures monitor { self.new.monitor ≡ self.old.monitor }
        ensures rest { self.new ≡ record self.old { port = self.new.port } }
        ensures shut { IfSome self.new.port (λ p. p.link.shut ≡ true) }
    {
        self.standing.leave();
    }
}

impl<W: Dialed + Drop> Watch<W> {
    /// What the monitor says first on a connection: where each of its streams stands, and where it begins.
    fn greeting(&self, alloc: Global, monitor: &Monitor) -> Result<Greeting, NoMemory>
        requires counts { length (places_at monitor.now.setup monitor.now.trail) ≡ length self.now.counts }
        requires anew { monitor.now ≡ begun self.now.monitor }
        ensures monitor { IfOk result (λ g. NamesMonitor g) }
        ensures streams { IfOk result (λ g. TellsStreams g) }
        ensures says { IfOk result (IsGreetingOf self.now) }
    {
        let starts = monitor.places()?;
        Ok(Greeting {
            run: self.run,
            mon: self.standing.monitor().number(),
            beginnings: beginnings(alloc, self.counts.as_slice(), &starts)?,
        })
    }

    /// Puts the greeting of a monitor that begins anew in front of all that a link will give.
    fn put_ahead(&self, greeting: &Greeting, link: &mut W) -> Result<(), NoMemory>
        requires monitor { NamesMonitor greeting.now }
        requires streams { TellsStreams greeting.now }
        requires says { IsGreetingOf self.now greeting.now }
        requires new { IsNew W.Wire.tells (W.Wire.traffic link.old) (W.Wire.counts link.old) }
        requires once { W.greeted link.old ≡ false }
        ensures greeted { OnOk result (W.greeted link.new ≡ true) }
        ensures new { IsNew W.Wire.tells (W.Wire.traffic link.new) (W.Wire.counts link.new) }
    {
        link.greet(greeting)
    }

    /// Greets over a link, for a monitor that begins anew.
    fn greet(&self, alloc: Global, monitor: &Monitor, link: &mut W) -> Result<(), NoMemory>
        requires counts { length (places_at monitor.now.setup monitor.now.trail) ≡ length self.now.counts }
        requires anew { monitor.now ≡ begun self.now.monitor }
        requires new { IsNew W.Wire.tells (W.Wire.traffic link.old) (W.Wire.counts link.old) }
        requires once { W.greeted link.old ≡ false }
        ensures greeted { OnOk result (W.greeted link.new ≡ true) }
        ensures new { IsNew W.Wire.tells (W.Wire.traffic link.new) (W.Wire.counts link.new) }
    {
        let greeting = self.greeting(alloc, monitor)?;
        let greeted = self.put_ahead(&greeting, link);
        drop(greeting);
        greeted
    }

    /// A port of a monitor that begins anew, over a link that was dialed, once that is greeted.
    fn joined(&self, alloc: Global, link: W) -> Result<Port<W>, NoMemory>
        requires new { IsNew W.Wire.tells (W.Wire.traffic link) (W.Wire.counts link) }
        requires once { W.greeted link ≡ false }
        ensures joins { IfOk result (λ port. JoinsAnew self.now port) }
        ensures greeted { IfOk result (λ port. W.greeted port.link.wire ≡ true) }
    {
        let mut link = link;
        let Ok(monitor) = begin_anew(alloc, self.standing.monitor()) else {
            drop(link);
            return Err(NoMemory);
        };
        if self.greet(alloc, &monitor, &mut link).is_err() {
            drop(link);
            drop(monitor);
            return Err(NoMemory);
        }
        Port::new(alloc, link, monitor, self.run, self.version)
    }

    /// Begins a connection over a link that was dialed: the monitor begins anew, and the link is greeted.
    pub fn begin(&mut self, alloc: Global, link: W) -> Result<(), NoMemory>
        requires new { IsNew W.Wire.tells (W.Wire.traffic link) (W.Wire.counts link) }
        requires once { W.greeted link ≡ false }
        ensures ok { OnOk result (Begins self.old self.new) }
        ensures greeted { OnOk result (IfSome self.new.port (λ port. W.greeted port.link.wire ≡ true)) }
        ensures err { OnErr result (self.new ≡ self.old) }
        ensures kept { IsWatch self.new }
    {
        let weight = size_of_values(self.standing.monitor());
        let port = self.joined(alloc, link)?;
        self.standing = Standing::joined(port);
        self.weight = weight;
        Ok(())
    }
}
