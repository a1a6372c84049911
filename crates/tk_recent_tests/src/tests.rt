//! Windows that move, in plain numbers, and a caller that tells what is taken back.

ghost use Rattle.std.specs.Prelude.{◌≡◌, ◌++◌, [], OnOk};

use std::alloc::Global;
use tk_base::{NoMemory, Obj};
use tk_input::{Change, Changes};
use tk_recent::Recent;

/// Tells what is to be taken back, one by one, to a list.
fn tell_back(recent: &mut Recent, told: &mut Changes) -> Result<(), NoMemory>
    ensures { OnOk result ((told.new ≡ told.old ++ recent.old.back) × (recent.new ≡ record recent.old { back = [] })) }
{
    while let Some(change) = recent.next_back() {
        told.push(change)?;
        recent.take_back();
    }
    Ok(())
}

/// A record, or the end of a tick.
#[derive(Clone, Copy)]
enum Step {
    Note(u32, i128),
    Tick,
}

use Step::{Note, Tick};

/// Takes a step, and tells what it tells.
fn take_step(recent: &mut Recent, step: Step, told: &mut Changes) -> Option<()> {
    match step {
        Note(obj, by) => {
            let change = Change { obj: Obj(obj), by };
            if obj == 0 || obj > recent.objects() {
                return None;
            }
            recent.note(change).ok()?;
            told.push(change).ok()
        }
        Tick => {
            if !recent.is_settled() {
                return None;
            }
            recent.tick().ok()?;
            tell_back(recent, told).ok()
        }
    }
}

/// What some steps tell, of a catalogue of 3.
fn told_by(alloc: Global, width: u64, steps: &[Step]) -> Option<Changes> {
    let mut recent = Recent::new(alloc, 3, width).ok()?;
    let mut told = Changes::new(alloc);
    for step in steps {
        take_step(&mut recent, *step, &mut told)?;
    }
    Some(told)
}

/// Whether they tell this.
fn tells(alloc: Global, width: u64, steps: &[Step], wanted: &[(u32, i128)]) -> bool {
    let Some(told) = told_by(alloc, width, steps) else {
        return false;
    };
    if told.len() != wanted.len() {
        return false;
    }
    for i in 0..told.len() {
        let change = told.at(i);
        if (change.obj.0, change.by) != wanted[i] {
            return false;
        }
    }
    true
}

/// Three ticks: a 5, b 3, a 1; then a -6, c 7; then nothing.
const STEPS: [Step; 8] = [
    Note(1, 5),
    Note(2, 3),
    Note(1, 1),
    Tick,
    Note(1, -6),
    Note(3, 7),
    Tick,
    Tick,
];

#[test]
fn each_tick_is_taken_back_once_it_leaves_the_window(rt: HostRuntime) {
    let alloc = rt.alloc();
    let wide = [(1, 5), (2, 3), (1, 1), (1, -6), (3, 7)];
    assert!(rt; tells(alloc, 3, &STEPS, &wide));
    let two = [(1, 5), (2, 3), (1, 1), (1, -6), (3, 7), (1, -6), (2, -3)];
    assert!(rt; tells(alloc, 2, &STEPS, &two));
    let one = [
        (1, 5),
        (2, 3),
        (1, 1),
        (1, -6),
        (3, 7),
        (1, -6),
        (2, -3),
        (1, 6),
        (3, -7),
    ];
    assert!(rt; tells(alloc, 1, &STEPS, &one));
}
