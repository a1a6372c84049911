//! How a world keeps its events: a raise takes no memory, any other event has its room made first.

ghost use Rattle.std.specs.Prelude.{◌≡◌, ◌-◌, ◌^◌, ◌<◌, [], ◌∷◌, ◌++◌, IfOk, OnOk};
ghost use Rattle.tk_input.specs.declared.event.Event.TheVariants.{Raise};

use std::alloc::Global;
use std::marker::Model;
use tk_base::{Feeder, Mon, NoMemory};
use tk_input::Event;

/// The events that took place, with room for all raises that are left.
#[derive(Debug, Drop)]
pub struct Diary {
    events: Vec<Event>,
    raises: usize,
    spare: usize,
}

impl Model for Diary {
    ghost use Rattle.std.specs.Prelude.{length};
    ghost use Rattle.std.specs.Vec.{vec_capacity};
    ghost use Rattle.tk_world.specs.Diary.{DiaryView};
    ghost use Rattle.tk_monitor.specs.Trail.{HasRoom};

    ghost Value = { DiaryView };

    ghost view = { λ d. record {
      events = d.events.items;
      raises = d.raises;
      spare = d.spare;
    } };

    ghost invariant = { λ d. HasRoom (length d.events.items) (vec_capacity d.events) d.raises d.spare };
}

impl Diary {
    /// An empty one, with room for so many raises.
    pub fn new(alloc: Global, raises: usize) -> Result<Diary, NoMemory>
        requires { raises < 2 ^ 32 }
        ensures { IfOk result (λ d. d ≡ record { events = []; raises = raises; spare = 0 }) }
    {
        Ok(Diary {
            events: Vec::with_capacity(alloc, raises)?,
            raises,
            spare: 0,
        })
    }

    /// Where its memory comes from.
    pub fn alloc(&self) -> Global {
        *self.events.allocator()
    }

    /// Makes room for one event beside that for the raises.
    pub fn reserve(&mut self) -> Result<(), NoMemory>
        ensures ok { OnOk result (self.new.spare ≡ 1) }
        ensures events { self.new.events ≡ self.old.events }
        ensures raises { self.new.raises ≡ self.old.raises }
    {
        self.spare = 0;
        self.events.reserve(self.raises + 1)?;
        self.spare = 1;
        Ok(())
    }

    /// Notes a raise, without memory.
    pub fn raised(&mut self, mon: Mon, f: Feeder)
        requires { 0 < self.old.raises }
        ensures { self.new ≡ record self.old {
          events = self.old.events ++ Raise mon f ∷ [];
          raises = self.old.raises - 1;
        } }
    {
        self.events.push_reserved(Event::Raise(mon, f));
        self.raises -= 1;
    }

    /// Notes an event for which there is room.
    pub fn note(&mut self, event: Event)
        requires { 0 < self.old.spare }
        ensures { self.new ≡ record self.old {
          events = self.old.events ++ event ∷ [];
          spare = self.old.spare - 1;
        } }
    {
        self.events.push_reserved(event);
        self.spare -= 1;
    }

    /// The events, in order.
    pub fn into_events(self) -> Vec<Event>
        ensures { result.items ≡ self.events }
    {
        let Diary { events, .. } = self;
        events
    }
}
