//! Changes that are drawn from a seed, and the logs that they make.

ghost use Rattle.std.specs.Prelude.{◌≡◌, ◌≤◌, ◌+◌, ◌%◌, ◌-ℤ◌, ◌<◌, IfOk, All, length, map, min, pos};
ghost use Rattle.tk_input.specs.Logs.{IsObject};
ghost use Rattle.tk_commands.specs.Generated.{after_update, log_of, logs_made, made, shown, update_at};

use rand_core::SeedableRng;
use rand_core::utils::NextWord;
use rand_xoshiro::SplitMix64;
use std::alloc::Global;
use tk_base::{Mon, NoMemory, Obj};
use tk_input::{Change, Changes, Part};

/// One update: the change of an object at a monitor.
#[derive(Clone, Copy, Debug, PartialEq, Eq)]
pub struct Update {
    pub mon: Mon,
    pub change: Change,
}

fn monitor_by(word: u64, monitors: u32) -> Mon
    requires some { 0 < monitors }
    ensures { result.0 ≡ word % monitors + 1 }
{
    Mon((word % u64::from(monitors)) as u32 + 1)
}

/// The lesser of two objects, so that those of small numbers are drawn more often.
fn object_by(one: u64, other: u64, objects: u32) -> Obj
    requires some { 0 < objects }
    ensures value { result.0 ≡ min (one % objects) (other % objects) + 1 }
    ensures object { IsObject objects result.0 }
{
    let one = one % u64::from(objects);
    let other = other % u64::from(objects);
    Obj(one.min(other) as u32 + 1)
}

/// From -20 to 79.
fn change_by(word: u64) -> i128
    ensures { result ≡ pos (word % 100) -ℤ pos 20 }
{
    i128::from(word % 100) - 20
}

/// Draws four words, and makes an update of them.
fn draw(words: &mut SplitMix64, monitors: u32, objects: u32) -> Update
    requires monitors { 0 < monitors }
    requires objects { 0 < objects }
    ensures value { shown result ≡ update_at monitors objects words.old }
    ensures state { words.new ≡ after_update words.old }
    ensures object { IsObject objects result.change.obj.0 }
{
    let mon = monitor_by(words.next_word(), monitors);
    let one = words.next_word();
    let other = words.next_word();
    let obj = object_by(one, other, objects);
    let by = change_by(words.next_word());
    Update {
        mon,
        change: Change { obj, by },
    }
}

/// So many updates from a seed.
pub fn updates_of(
    alloc: Global,
    seed: u64,
    count: u32,
    monitors: u32,
    objects: u32,
) -> Result<Vec<Update>, NoMemory>
    requires monitors { 0 < monitors }
    requires objects { 0 < objects }
    ensures value { IfOk result (λ list. map shown list.items ≡ made monitors objects count seed) }
    ensures objects { IfOk result (λ list. All (λ u. IsObject objects u.change.obj.0) list.items) }
    ensures length { IfOk result (λ list. length list.items ≡ count) }
{
    let mut words = SplitMix64::seed_from_u64(seed);
    let mut list = Vec::new(alloc);
    for _ in 0..count {
        list.push(draw(&mut words, monitors, objects))?;
    }
    Ok(list)
}

/// The log of a monitor.
fn log_at(alloc: Global, updates: &[Update], mon: Mon, objects: u32) -> Result<Changes, NoMemory>
    requires { All (λ u. IsObject objects u.change.obj.0) updates.now }
    ensures value { IfOk result (λ list. list ≡ log_of mon.0 updates.now) }
    ensures objects { IfOk result (λ list. All (λ c. IsObject objects c.0) list) }
    ensures few { IfOk result (λ list. length list ≤ length updates.now) }
{
    let mut list = Changes::new(alloc);
    for update in updates {
        if update.mon == mon {
            list.push(update.change)?;
        }
    }
    list.shrink_to_fit();
    Ok(list)
}

/// The log of each monitor, one feeder each, monitors ascending.
pub fn parts_of(
    alloc: Global,
    updates: &[Update],
    monitors: u32,
    objects: u32,
) -> Result<Vec<(Mon, Part)>, NoMemory>
    requires monitors { monitors ≤ 64 }
    requires objects { All (λ u. IsObject objects u.change.obj.0) updates.now }
    requires few { length updates.now ≤ 1000000 }
    ensures monitors { IfOk result (λ parts. All (λ p. (1 ≤ p.0.0) × (p.0.0 ≤ 64)) parts.items) }
    ensures objects { IfOk result (λ parts. All (λ p. All (λ c. IsObject objects c.0) p.1) parts.items) }
    ensures lengths { IfOk result (λ parts. All (λ p. length p.1 ≤ 1000000) parts.items) }
    ensures value { IfOk result (λ parts. parts.items ≡ logs_made monitors (map shown updates.now)) }
{
    let mut parts = Vec::new(alloc);
    for j in 0..monitors {
        let mon = Mon(j + 1);
        parts.push((mon, Part::new(log_at(alloc, updates, mon, objects)?)))?;
    }
    Ok(parts)
}
