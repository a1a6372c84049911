//! The code that begins a monitor anew: its values as changes, and the closing records of its open streams.

ghost use Rattle.std.specs.Prelude.{◌≡◌, ◌<◌, ◌≤◌, ◌++◌, ◌∷◌, [], IfOk, OnOk, if◌then◌else◌, length, nat_lt, slice_index_or};
ghost use Rattle.tk_compact.specs.Anew.{base_of, closer, size_of_values as values_size};
ghost use Rattle.tk_compact.specs.Begun.{begun};
ghost use Rattle.tk_compact.specs.Compacted.{changes_something, compacted};
ghost use Rattle.tk_monitor.specs.Monitored.{IsFeederOf};
ghost use Rattle.tk_trail.specs.Legal.{IsLegal, part_length, place_of};
ghost use Rattle.tk_trail.specs.Readings.{values_of};
ghost use Rattle.tk_trail.specs.Setup.{IsSetup};

use std::alloc::Global;
use tk_base::{Feeder, NoMemory, Obj, Places};
use tk_input::{Change, Changes, Part};
use tk_monitor::Monitor;

/// The sizes of the values of all objects, summed. Costs a look at each object.
pub fn size_of_values(monitor: &Monitor) -> u128
    requires setup { IsSetup monitor.now.setup }
    ensures { result ≡ values_size monitor.now.setup monitor.now.trail }
{
    let mut sum: u128 = 0;
    for i in 0..monitor.settings().objects() {
        sum += monitor.value(Obj(i + 1)).unsigned_abs();
    }
    sum
}

/// Adds a change, where it changes something.
fn add(changes: &mut Changes, obj: Obj, by: i128) -> Result<(), NoMemory>
    ensures { OnOk result (changes.new ≡ changes.old ++ (if changes_something (obj.0, by) then (obj.0, by) ∷ [] else [])) }
{
    if by.unsigned_abs() == 0 {
        return Ok(());
    }
    changes.push(Change { obj, by })
}

/// One change for each object whose value is not zero.
fn compact(alloc: Global, monitor: &Monitor) -> Result<Changes, NoMemory>
    requires setup { IsSetup monitor.now.setup }
    ensures { IfOk result (λ changes. changes ≡ compacted (values_of monitor.now.setup monitor.now.trail)) }
{
    let objects = monitor.settings().objects();
    let mut changes = Changes::new(alloc);
    for i in 0..objects {
        let obj = Obj(i + 1);
        add(&mut changes, obj, monitor.value(obj))?;
    }
    Ok(changes)
}

/// What stands for the past of a stream, by its place from 0.
fn base_at(alloc: Global, monitor: &Monitor, i: usize) -> Result<Changes, NoMemory>
    requires setup { IsSetup monitor.now.setup }
    ensures { IfOk result (λ base. base ≡ slice_index_or (base_of monitor.now.setup monitor.now.trail) i []) }
{
    if i > 0 {
        return Ok(Changes::new(alloc));
    }
    compact(alloc, monitor)
}

/// Whether a stream has something left to raise.
fn is_open(monitor: &Monitor, f: Feeder) -> bool
    requires { IsFeederOf monitor.now.setup f.0 }
    ensures { result ≡ nat_lt (place_of monitor.now.setup monitor.now.trail f.0) (part_length monitor.now.setup f.0) }
{
    (monitor.place(f) as usize) < monitor.length(f)
}

/// Adds the closing record of a stream, where it is open.
fn close(changes: &mut Changes, opened: bool) -> Result<(), NoMemory>
    ensures { OnOk result (changes.new ≡ changes.old ++ closer opened) }
{
    if opened {
        let closing = Change { obj: Obj(1), by: 0 };
        return changes.push(closing);
    }
    Ok(())
}

/// Adds the part of a stream, and the place behind its base.
fn add_part(
    mut base: Changes,
    opened: bool,
    parts: &mut Vec<Part>,
    from: &mut Vec<u32>,
) -> Result<(), NoMemory>
    requires { length base ≤ 65536 }
    ensures part { OnOk result (parts.new.items ≡ parts.old.items ++ (base ++ closer opened) ∷ []) }
    ensures start { OnOk result (from.new.items ≡ from.old.items ++ length base ∷ []) }
{
    let start = base.len() as u32;
    close(&mut base, opened)?;
    from.push(start)?;
    parts.push(Part::new(base))?;
    Ok(())
}

/// A monitor behind a base that stands for what another reached, with the closing records of its open streams. Costs a look
/// at each object, and a raise for each of its changes.
pub fn begin_anew(alloc: Global, monitor: &Monitor) -> Result<Monitor, NoMemory>
    requires setup { IsSetup monitor.now.setup }
    ensures ok { IfOk result (λ m. m ≡ begun monitor.now) }
    ensures setup { IfOk result (λ m. IsSetup m.setup) }
    ensures legal { IfOk result (λ m. IsLegal m.setup m.trail) }
{
    let mut parts = Vec::new(alloc);
    let mut from = Vec::new(alloc);
    let streams = monitor.places()?.len();
    for i in 0..streams {
        let opened = is_open(monitor, Feeder(i as u32 + 1));
        add_part(base_at(alloc, monitor, i)?, opened, &mut parts, &mut from)?;
    }
    let start = Places::new(from);
    Monitor::new(alloc, monitor.settings(), monitor.number(), parts, &start)
}
