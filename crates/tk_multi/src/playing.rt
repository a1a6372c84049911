//! What several queries come to.

ghost use Rattle.std.specs.Prelude.{◌≡◌, [], All, IfOk, OnOk, length, map};
ghost use Rattle.tk_input.specs.Logs.{beginnings};
ghost use Rattle.tk_multi.specs.Alone.{AreOfOneSize};
ghost use Rattle.tk_multi.specs.Beginning.{Begins, HasBegun, HasRoom, TakesRoom};
ghost use Rattle.tk_multi.specs.Multi.{begun_over, passed_all};
ghost use Rattle.tk_multi.specs.Answers.{AreAnswers, AreFinished, IsEnd, events_in};

use crate::alone::Alone;
use crate::laws::each_query_is_as_alone;
use crate::multi::Multi;
use crate::order::MultiOrder;
use crate::watch::Watch;
use std::alloc::Global;
use tk_base::NoMemory;
use tk_drain::{a_drive_is_reached, finish, what_is_reached_runs};
use tk_input::{Catalog, Logs};
use tk_story::Story;
use tk_world::World;

/// The story of each query, in order, and the names of its objects.
#[derive(Drop)]
pub struct Told {
    pub names: Vec<Catalog>,
    pub stories: Vec<Story>,
}

/// Queries that begin, and the names of the objects of each.
#[derive(Drop)]
pub struct Begun {
    pub multi: Multi,
    pub names: Vec<Catalog>,
}

/// What the queries so far begin with, each list with room for the others.
#[derive(Drop)]
struct Lists {
    names: Vec<Catalog>,
    watches: Vec<Watch>,
    worlds: Vec<World>,
}

/// Room for so many queries.
fn new_lists(alloc: Global, count: usize) -> Result<Lists, NoMemory>
    ensures none { IfOk result (HasBegun []) }
    ensures room { IfOk result (HasRoom count) }
{
    let names = Vec::with_capacity(alloc, count)?;
    let watches = Vec::with_capacity(alloc, count)?;
    let worlds = Vec::with_capacity(alloc, count)?;
    Ok(Lists {
        names,
        watches,
        worlds,
    })
}

/// Lets one query more begin. Here and below what is left is dropped by name: a place that drops worlds or logs by itself is
/// dear to prove.
fn begin_one(alloc: Global, lists: &mut Lists, alone: Alone) -> Result<(), NoMemory>
    requires sizes { AreOfOneSize alone }
    requires room { HasRoom 1 lists.old }
    ensures begins { OnOk result (Begins alone lists.old lists.new) }
    ensures room { OnOk result (TakesRoom lists.old lists.new) }
{
    let Alone {
        names,
        watch,
        settings,
        logs,
        from,
    } = alone;
    match World::new(alloc, settings, logs, from) {
        Ok(world) => {
            lists.names.push_reserved(names);
            lists.watches.push_reserved(watch);
            lists.worlds.push_reserved(world);
            Ok(())
        }
        Err(NoMemory) => {
            drop(names);
            drop(watch);
            Err(NoMemory)
        }
    }
}

/// Lets each query begin.
fn begin_each(alloc: Global, lists: &mut Lists, alones: Vec<Alone>) -> Result<(), NoMemory>
    requires sizes { All AreOfOneSize alones.items }
    requires none { HasBegun [] lists.old }
    requires room { HasRoom (length alones.items) lists.old }
    ensures { OnOk result (HasBegun alones.items lists.new) }
{
    for alone in alones {
        begin_one(alloc, lists, alone)?;
    }
    Ok(())
}

/// Queries over the common logs that have begun.
fn begun_with(alloc: Global, logs: Logs, lists: Lists) -> Result<Begun, NoMemory>
    requires { length lists.watches.items ≡ length lists.worlds.items }
    ensures multi { IfOk result (λ b. b.multi ≡ record {
      logs = logs;
      places = beginnings logs;
      watches = lists.watches.items;
      worlds = lists.worlds.items;
    }) }
    ensures names { IfOk result (λ b. b.names.items ≡ lists.names.items) }
{
    let Lists {
        names,
        watches,
        worlds,
    } = lists;
    match Multi::over(alloc, logs, watches, worlds) {
        Ok(multi) => Ok(Begun { multi, names }),
        Err(NoMemory) => {
            drop(names);
            Err(NoMemory)
        }
    }
}

/// Lets each query begin over the common logs.
pub fn begin(alloc: Global, logs: Logs, alones: Vec<Alone>) -> Result<Begun, NoMemory>
    requires { All AreOfOneSize alones.items }
    ensures multi { IfOk result (λ b. b.multi ≡ begun_over logs alones.items) }
    ensures names { IfOk result (λ b. b.names.items ≡ map (λ one. one.names) alones.items) }
{
    let Ok(room) = new_lists(alloc, alones.len()) else {
        drop(logs);
        drop(alones);
        return Err(NoMemory);
    };
    let mut lists = room;
    match begin_each(alloc, &mut lists, alones) {
        Ok(()) => begun_with(alloc, logs, lists),
        Err(NoMemory) => {
            drop(logs);
            drop(lists);
            Err(NoMemory)
        }
    }
}

/// Lets the events of an order happen, passing over those that do not where they stand.
fn play(multi: &mut Multi, order: &Option<MultiOrder>) -> Result<(), NoMemory>
    ensures { OnOk result (multi.new ≡ passed_all multi.old (events_in order.now)) }
{
    let Some(order) = order else {
        return Ok(());
    };
    for i in 0..order.len() {
        multi.step(order.at(i))?;
    }
    Ok(())
}

/// Finishes a world. Where that fails it is dropped by name: a place that drops a world by itself is dear to prove.
fn finish_one(alloc: Global, world: World) -> Result<Story, NoMemory>
    ensures { IfOk result (IsEnd world) }
{
    let mut world = world;
    match finish(alloc, &mut world) {
        Ok(()) => world.into_story(),
        Err(NoMemory) => {
            drop(world);
            Err(NoMemory)
        }
    }
}

/// Finishes each world.
fn finish_all(alloc: Global, worlds: Vec<World>) -> Result<Vec<Story>, NoMemory>
    ensures { IfOk result (λ stories. AreFinished worlds.items stories.items) }
{
    let mut stories = Vec::with_capacity(alloc, worlds.len())?;
    for world in worlds {
        stories.push_reserved(finish_one(alloc, world)?);
    }
    Ok(stories)
}

/// Lets the events of an order happen, and finishes each query.
fn end(alloc: Global, multi: Multi, order: &Option<MultiOrder>) -> Result<Vec<Story>, NoMemory>
    ensures { IfOk result (λ stories. AreFinished (passed_all multi (events_in order.now)).worlds stories.items) }
{
    let mut multi = multi;
    match play(&mut multi, order) {
        Ok(()) => finish_all(alloc, multi.into_worlds()),
        Err(NoMemory) => {
            drop(multi);
            Err(NoMemory)
        }
    }
}

/// The story of each query over the common logs: what it sees of the events of the order, and then the drive to the ends
/// of its logs.
pub fn tell(
    alloc: Global,
    logs: Logs,
    alones: Vec<Alone>,
    order: &Option<MultiOrder>,
) -> Result<Told, NoMemory>
    requires { All AreOfOneSize alones.items }
    ensures names { IfOk result (λ told. told.names.items ≡ map (λ one. one.names) alones.items) }
    ensures stories { IfOk result (λ told. AreAnswers logs (events_in order.now) alones.items told.stories.items) }
{
    let Begun { multi, names } = begin(alloc, logs, alones)?;
    each_query_is_as_alone();
    a_drive_is_reached();
    what_is_reached_runs();
    match end(alloc, multi, order) {
        Ok(stories) => Ok(Told { names, stories }),
        Err(NoMemory) => {
            drop(names);
            Err(NoMemory)
        }
    }
}
