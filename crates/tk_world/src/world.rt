//! The world: how events happen to its nodes, one at a time, and what it shows until it becomes a story.

ghost use Rattle.std.specs.Prelude.{◌≡◌, ◌≤◌, ◌↔◌, [], true, false, None, IfOk, IfSome, OnErr, is_ok, is_some};
ghost use Rattle.tk_input.specs.declared.event.Event.TheVariants.{Raise, Check, Up, Down, Retune};
ghost use Rattle.tk_journal.specs.Laws.{IsMonitor};
ghost use Rattle.tk_journal.specs.Readings.{members_at};
ghost use Rattle.tk_story.specs.Moments.{AreMembersValid, IsQuiet, cut_of};
ghost use Rattle.tk_story.specs.Story.{IsStory};
ghost use Rattle.tk_world.specs.Events.{CanOnlyChange, begin, next_of};
ghost use Rattle.tk_world.specs.Nodes.{IsFresh};
ghost use Rattle.tk_world.specs.World.{AreAtRest, CanRun, IsAtRest, IsFeeder, Moves, is_raise};

use crate::diary::Diary;
use crate::direct::Direct;
use crate::left::left_after;
use crate::moved::Moved;
use crate::nodes::Nodes;
use crate::seat::has_empty_links;
use crate::seats::{are_at_rest, are_quiet, cut_at};
use crate::work::Work;
use std::alloc::Global;
use std::marker::Model;
use tk_base::{Cut, Feeder, Mon, NoMemory, ObjSet, Settings};
use tk_input::{Event, Logs, Retuning};
use tk_monitor::{Checked, Raised};
use tk_story::Story;

/// So many levels, of 8 bytes, do not all stay near the processor.
const FAR: u64 = 262_144;

/// A coordinator and its monitors in memory, moved by events. Contracts see the story so far, and the
/// events that took place. Without a type of its nodes it hands their frames over as they are.
#[derive(Drop)]
pub struct World<N: Nodes = Direct> {
    logs: Logs,
    from: Cut,
    nodes: N,
    diary: Diary,
    /// The monitors at which a check or a delivery may be enabled.
    work: Work,
    /// What the last looks ahead saw, kept so that they are made.
    touched: u64,
}

impl<N: Nodes> Model for World<N> {
    ghost use Rattle.tk_story.specs.Kept.{KeptStory};
    ghost use Rattle.tk_world.specs.Seats.{HoldsWith, story_with};

    ghost Value = { KeptStory };

    ghost view = { λ w. record { story = story_with (N.seen w.nodes) w.logs w.from; events = w.diary.events } };

    ghost invariant = { λ w. HoldsWith (N.seen w.nodes) w.logs w.from w.diary.raises w.work };
}

impl World {
    /// Takes the room for all raises. Costs the objects of each monitor and the changes in front of the
    /// cut, times a logarithm of the objects.
    pub fn new(alloc: Global, settings: Settings, logs: Logs, from: Cut) -> Result<World, NoMemory>
        requires { CanRun settings logs from }
        ensures { IfOk result (λ w. w ≡ record { story = begin settings logs from; events = [] }) }
    {
        match Direct::new(alloc, settings, &logs, &from) {
            Ok(nodes) => World::over(alloc, nodes, logs, from),
            Err(NoMemory) => {
                drop(logs);
                drop(from);
                Err(NoMemory)
            }
        }
    }
}

impl<N: Nodes + Drop> World<N> {
    /// A world of nodes that have just begun. Takes the room for all raises.
    pub fn over(alloc: Global, nodes: N, logs: Logs, from: Cut) -> Result<World<N>, NoMemory>
        requires run { CanRun (N.seen nodes).coordinator.settings logs from }
        requires fresh { IsFresh (N.seen nodes) logs from }
        ensures { IfOk result (λ w. w ≡ record { story = begin (N.seen nodes).coordinator.settings logs from; events = [] }) }
    {
        // The logs are read for their clause, their limits.
        let _ = logs.monitors();
        let Ok(diary) = Diary::new(alloc, left_after(&logs, &from)) else {
            // Here and below by name: `?` would drop each of them by itself, which is dear to prove.
            drop(logs);
            drop(from);
            drop(nodes);
            return Err(NoMemory);
        };
        let mut work = Work::none();
        work.insert_sent(nodes.coordinator().journal());
        Ok(World {
            logs,
            from,
            nodes,
            diary,
            work,
            touched: 0,
        })
    }
}

impl<N: Nodes> World<N> {
    /// Makes an event happen, or tells that it is not enabled. Costs what the node that it is for does.
    pub fn step(&mut self, event: Event) -> Result<Moved, NoMemory>
        ensures ok { IfOk result (λ moved. Moves self.old event moved self.new) }
        // Want of memory comes only of an event that is enabled.
        ensures enabled { OnErr result (is_some (next_of self.old.story event) ≡ true) }
        ensures err { OnErr result (self.new ≡ self.old) }
        ensures raise { is_raise event ≡ true → is_ok result ≡ true }
        ensures legal { IsStory self.new.story }
    {
        match event {
            Event::Raise(mon, f) => Ok(self.raise(mon, f)),
            Event::Check(mon) => self.check(mon),
            Event::Up(mon) => self.up(mon),
            Event::Down(mon) => self.down(mon),
            Event::Retune(retuning) => self.retune(retuning),
        }
    }

    fn has_feeder(&self, mon: Mon, f: Feeder) -> bool
        ensures yes { result ≡ true → IsFeeder self.now.story mon.0 f.0 }
        ensures none { result ≡ false → next_of self.now.story (Raise mon f) ≡ None }
    {
        if mon.0 == 0 || mon.0 > self.nodes.coordinator().settings().monitors() {
            return false;
        }
        0 < f.0 && f.0 <= self.logs.feeders(mon)
    }

    /// Raises the next change of a feeder, or tells that there is none. It takes no memory.
    pub fn raise(&mut self, mon: Mon, f: Feeder) -> Moved
        ensures moves { Moves self.old (Raise mon f) result self.new }
        ensures legal { IsStory self.new.story }
    {
        if !self.has_feeder(mon, f) {
            return Moved::Idle;
        }
        match self.nodes.raise(mon, f) {
            Raised::Ended => Moved::Idle,
            Raised::Done { broken } => {
                let ended = self.nodes.monitor(mon).ended();
                self.work.insert_if(mon, broken || ended);
                self.diary.raised(mon, f);
                Moved::Yes
            }
        }
    }

    /// A look at the leaf that the next change of a feeder moves.
    fn touch_one(&self, mon: Mon, f: Feeder) -> u64 {
        if !self.has_feeder(mon, f) {
            return 0;
        }
        self.nodes.monitor(mon).touch(f)
    }

    /// Looks at the leaves that the next changes of some parts move, so that they come from memory side by side and not in
    /// turn, where they are too many to be near. Nothing changes.
    pub fn touch(&mut self, parts: &[(Mon, Feeder)])
        ensures { self.new ≡ self.old }
    {
        let settings = self.nodes.coordinator().settings();
        if u64::from(settings.objects()) * u64::from(settings.monitors()) < FAR {
            return;
        }
        let mut seen = 0;
        for part in parts {
            seen ^= self.touch_one(part.0, part.1);
        }
        self.touched = seen;
    }

    fn check(&mut self, mon: Mon) -> Result<Moved, NoMemory>
        ensures ok { IfOk result (λ moved. Moves self.old (Check mon) moved self.new) }
        ensures enabled { OnErr result (is_some (next_of self.old.story (Check mon)) ≡ true) }
        ensures err { OnErr result (self.new ≡ self.old) }
        ensures legal { IsStory self.new.story }
    {
        if !self.work.contains(mon) {
            return Ok(Moved::Idle);
        }
        if let Checked::Nothing = self.nodes.monitor(mon).checked() {
            let is_empty = has_empty_links(&self.nodes, mon);
            self.work.remove_if(mon, is_empty);
            return Ok(Moved::Idle);
        }
        self.diary.reserve()?;
        self.nodes.check(mon)?;
        self.diary.note(Event::Check(mon));
        Ok(Moved::Yes)
    }

    /// The coordinator takes the next frame of a monitor.
    fn up(&mut self, mon: Mon) -> Result<Moved, NoMemory>
        ensures ok { IfOk result (λ moved. Moves self.old (Up mon) moved self.new) }
        ensures enabled { OnErr result (is_some (next_of self.old.story (Up mon)) ≡ true) }
        ensures err { OnErr result (self.new ≡ self.old) }
        ensures legal { IsStory self.new.story }
    {
        if !self.work.contains(mon) {
            return Ok(Moved::Idle);
        }
        if self.nodes.got(mon) >= self.nodes.monitor(mon).sent() {
            return Ok(Moved::Idle);
        }
        self.diary.reserve()?;
        let before = self.nodes.coordinator().journal().len();
        self.nodes.up(mon)?;
        self.work
            .insert_sent(&self.nodes.coordinator().journal()[before..]);
        self.diary.note(Event::Up(mon));
        Ok(Moved::Yes)
    }

    /// A monitor takes the next frame of the coordinator.
    fn down(&mut self, mon: Mon) -> Result<Moved, NoMemory>
        ensures ok { IfOk result (λ moved. Moves self.old (Down mon) moved self.new) }
        ensures enabled { OnErr result (is_some (next_of self.old.story (Down mon)) ≡ true) }
        ensures err { OnErr result (self.new ≡ self.old) }
        ensures legal { IsStory self.new.story }
    {
        if !self.work.contains(mon) {
            return Ok(Moved::Idle);
        }
        if self.nodes.taken(mon) >= self.nodes.coordinator().sent(mon) {
            return Ok(Moved::Idle);
        }
        self.diary.reserve()?;
        self.nodes.down(mon)?;
        self.diary.note(Event::Down(mon));
        Ok(Moved::Yes)
    }

    fn retune(&mut self, retuning: Retuning) -> Result<Moved, NoMemory>
        ensures ok { IfOk result (λ moved. Moves self.old (Retune retuning) moved self.new) }
        ensures enabled { OnErr result (is_some (next_of self.old.story (Retune retuning)) ≡ true) }
        ensures err { OnErr result (self.new ≡ self.old) }
        ensures legal { IsStory self.new.story }
    {
        let k = retuning.k();
        let epsilon = retuning.epsilon();
        if self
            .nodes
            .coordinator()
            .retune_refusal(k, epsilon)
            .is_some()
        {
            return Ok(Moved::Idle);
        }
        self.diary.reserve()?;
        let before = self.nodes.coordinator().journal().len();
        self.nodes.retune(k, epsilon)?;
        self.work
            .insert_sent(&self.nodes.coordinator().journal()[before..]);
        self.diary.note(Event::Retune(retuning));
        Ok(Moved::Yes)
    }

    /// Whether nothing but a raise or a retune is enabled. Costs a constant where no monitor may have anything to do,
    /// else a look at each monitor.
    pub fn is_settled(&self) -> bool
        ensures value { (result ≡ true) ↔ CanOnlyChange self.now.story }
        ensures legal { IsStory self.now.story }
    {
        if self.work.is_empty() {
            return true;
        }
        are_at_rest(&self.nodes, self.work)
    }

    /// The next monitor at or above a number at which a check or a delivery may be enabled. It is found in a
    /// constant.
    pub fn next_busy(&self, from: Mon) -> Option<Mon>
        ensures found { IfSome result (λ mon. (from.0 ≤ mon.0) × IsMonitor self.now.story.settings mon.0) }
        ensures skipped { AreAtRest self.now.story from.0 result }
    {
        let _ = &self.nodes;
        self.work.next(from)
    }

    /// Whether every link is empty and nothing is broken. Takes no memory.
    pub fn quiet(&self) -> bool
        ensures value { (result ≡ true) ↔ IsQuiet self.now.story }
        ensures valid { result ≡ true → AreMembersValid self.now.story }
    {
        are_quiet(&self.nodes)
    }

    /// How far each feeder of each monitor is.
    pub fn cut(&self) -> Result<Cut, NoMemory>
        ensures { IfOk result (λ cut. cut ≡ cut_of self.now.story) }
    {
        cut_at(self.diary.alloc(), &self.nodes)
    }

    /// The present members.
    pub fn members(&self) -> &ObjSet
        ensures value { result.now ≡ members_at self.now.story.journal }
        ensures legal { IsStory self.now.story }
    {
        self.nodes.coordinator().members()
    }

    /// What its coordinator was made with.
    pub fn settings(&self) -> &Settings
        ensures value { result.now ≡ self.now.story.settings }
        ensures legal { IsStory self.now.story }
    {
        self.nodes.coordinator().settings()
    }

    /// The logs that it is over.
    pub fn logs(&self) -> &Logs
        ensures { result.now ≡ self.now.story.logs }
    {
        &self.logs
    }

    /// What the world did, for good.
    pub fn into_story(self) -> Result<Story, NoMemory>
        ensures { IfOk result (λ story. story ≡ self) }
    {
        let World {
            logs,
            from,
            nodes,
            diary,
            ..
        } = self;
        let Ok(parts) = nodes.into_parts(diary.alloc()) else {
            drop(logs);
            drop(from);
            drop(diary);
            return Err(NoMemory);
        };
        let (coordinator, monitors) = parts;
        let settings = *coordinator.settings();
        Ok(Story::of(
            coordinator,
            monitors,
            logs,
            settings,
            from,
            diary.into_events(),
        ))
    }
}
