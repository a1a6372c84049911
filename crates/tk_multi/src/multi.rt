//! Several queries at work: a raise moves the world of each that watches its object, any other event moves one.

ghost use Rattle.std.specs.Prelude.{◌≡◌, IfOk, IfSome, OnErr, is_ok, is_some, length, map, option_map, true};
ghost use Rattle.std.specs.List.{zip};
ghost use Rattle.tk_input.specs.Changes.{pair_of};
ghost use Rattle.tk_input.specs.declared.event.Event.TheVariants.{Raise as RaiseAlone};
ghost use Rattle.tk_drain.specs.Drive.{keep};
ghost use Rattle.tk_input.specs.Logs.{beginnings};
ghost use Rattle.tk_multi.specs.Multi.{GoesOn, Leaves, Steps, is_raise, moved_at, next_change as next_change_of, next_in, next_multi};
ghost use Rattle.tk_multi.specs.Projection.{is_feeder};
ghost use Rattle.tk_multi.specs.declared.event.MultiEvent.TheVariants.{Raise};

use crate::event::MultiEvent;
use crate::front::Front;
use crate::watch::Watch;
use std::alloc::Global;
use std::marker::Model;
use tk_base::{Feeder, Mon, NoMemory, Obj};
use tk_input::{Change, Event, Logs};
use tk_world::{Direct, Moved, Nodes, World};

/// Several queries over common logs, each with a world of its own. Contracts see how far each common part is raised and,
/// of each query, which objects it watches and the story of its world.
#[derive(Drop)]
pub struct Multi<N: Nodes = Direct> {
    logs: Logs,
    front: Front,
    watches: Vec<Watch>,
    worlds: Vec<World<N>>,
}

impl<N: Nodes> Model for Multi<N> {
    ghost use Rattle.std.specs.Prelude.{length};
    ghost use Rattle.tk_multi.specs.Multi.{AreSetUp, MultiView};

    ghost Value = { MultiView };

    ghost view = { λ m. record {
      logs = m.logs;
      places = m.front;
      watches = m.watches.items;
      worlds = m.worlds.items;
    } };

    ghost invariant = { λ m. AreSetUp m.logs m.front (length m.watches.items) (length m.worlds.items) };
}

/// Raises a change of a part that goes on, for which no memory is wanted.
fn raise_one<N: Nodes>(world: &mut World<N>, mon: Mon, f: Feeder)
    ensures { world.new ≡ keep world.old (RaiseAlone mon f) }
{
    match world.step(Event::Raise(mon, f)) {
        Ok(_) => {}
        Err(_) => unreachable!(),
    }
}

/// Raises a change of an object in the world of a query, if it watches that.
fn raise_if<N: Nodes>(world: &mut World<N>, watch: &Watch, mon: Mon, f: Feeder, obj: Obj)
    ensures { world.new ≡ moved_at (RaiseAlone mon f) obj.0 (watch.now, world.old) }
{
    if watch.has(obj) {
        raise_one(world, mon, f);
    }
}

/// Raises a change of an object in the world of each query that watches it.
fn raise_where<N: Nodes>(worlds: &mut [World<N>], watches: &[Watch], mon: Mon, f: Feeder, obj: Obj)
    requires { length watches.now ≡ length worlds.old }
    ensures { worlds.new ≡ map (moved_at (RaiseAlone mon f) obj.0) (zip watches.now worlds.old) }
{
    for i in 0..worlds.len() {
        raise_if(&mut worlds[i], &watches[i], mon, f, obj);
    }
}

impl<N: Nodes + Drop> Multi<N> {
    /// Queries over common logs, each with which objects it watches and with its world.
    pub fn over(
        alloc: Global,
        logs: Logs,
        watches: Vec<Watch>,
        worlds: Vec<World<N>>,
    ) -> Result<Multi<N>, NoMemory>
        requires { length watches.items ≡ length worlds.items }
        ensures { IfOk result (λ m. m ≡ record {
          logs = logs;
          places = beginnings logs;
          watches = watches.items;
          worlds = worlds.items;
        }) }
    {
        let Ok(front) = Front::start(alloc, &logs) else {
            // By name: `?` would drop each of them here, which is dear to prove.
            drop(logs);
            drop(watches);
            drop(worlds);
            return Err(NoMemory);
        };
        Ok(Multi {
            logs,
            front,
            watches,
            worlds,
        })
    }
}

impl<N: Nodes> Multi<N> {
    /// Makes an event happen, or tells that it does not. A raise is one of every query that watches its object; every
    /// other event is one of its query alone.
    pub fn step(&mut self, event: MultiEvent) -> Result<Moved, NoMemory>
        ensures ok { IfOk result (λ moved. Steps self.old event moved self.new) }
        // Want of memory comes only of an event that is enabled, and of no raise.
        ensures enabled { OnErr result (is_some (next_multi self.old event) ≡ true) }
        ensures raise { is_raise event ≡ true → is_ok result ≡ true }
        ensures err { OnErr result (self.new ≡ self.old) }
    {
        match event {
            MultiEvent::Raise(mon, f) => Ok(self.raise(mon, f)),
            MultiEvent::Check(q, mon) => self.step_in(q, Event::Check(mon)),
            MultiEvent::Up(q, mon) => self.step_in(q, Event::Up(mon)),
            MultiEvent::Down(q, mon) => self.step_in(q, Event::Down(mon)),
        }
    }

    fn has_feeder(&self, mon: Mon, f: Feeder) -> bool
        ensures { result ≡ is_feeder self.now.logs mon.0 f.0 }
    {
        if mon.0 == 0 || mon.0 > self.logs.monitors() {
            return false;
        }
        0 < f.0 && f.0 <= self.logs.feeders(mon)
    }

    /// The next common change of a feeder, if it is there and not at its end.
    fn next_change(&self, mon: Mon, f: Feeder) -> Option<Change>
        ensures value { option_map pair_of result ≡ next_change_of self.now mon.0 f.0 }
        ensures more { IfSome result (λ _. GoesOn self.now mon.0 f.0) }
    {
        if !self.has_feeder(mon, f) {
            return None;
        }
        let place = self.front.place(mon, f);
        if place < self.logs.length(mon, f) {
            Some(self.logs.change(mon, f, place))
        } else {
            None
        }
    }

    fn raise(&mut self, mon: Mon, f: Feeder) -> Moved
        ensures { Steps self.old (Raise mon f) result self.new }
    {
        let Some(change) = self.next_change(mon, f) else {
            return Moved::Idle;
        };
        let worlds = self.worlds.as_mut_slice();
        raise_where(worlds, self.watches.as_slice(), mon, f, change.obj);
        self.front.raise(mon, f);
        Moved::Yes
    }

    /// Makes an event of one query happen.
    fn step_in(&mut self, q: u32, event: Event) -> Result<Moved, NoMemory>
        ensures ok { IfOk result (λ moved. Leaves (next_in self.old q event) self.old moved self.new) }
        ensures enabled { OnErr result (is_some (next_in self.old q event) ≡ true) }
        ensures err { OnErr result (self.new ≡ self.old) }
    {
        if q == 0 || q as usize > self.worlds.len() {
            return Ok(Moved::Idle);
        }
        self.worlds[q as usize - 1].step(event)
    }

    /// How many queries there are.
    pub fn len(&self) -> usize
        ensures { result ≡ length self.now.worlds }
    {
        self.worlds.len()
    }

    /// What each query did, in order.
    pub fn into_worlds(self) -> Vec<World<N>>
        ensures { result.items ≡ self.worlds }
    {
        let Multi { worlds, .. } = self;
        worlds
    }
}
