//! A world of the objects a and b, with one feeder each for two monitors, and what its story says.

use std::alloc::Global;
use tk_base::{Cut, Feeder, Mon, ObjSet, Pairs, Settings};
use tk_frames::Frame;
use tk_input::{Catalog, Event, Logs, Part};
use tk_journal::Noted;
use tk_story::Story;
use tk_world::{Moved, World};

/// An event in plain words.
#[derive(Clone, Copy)]
enum Does {
    Raise(u32, u32),
    Check(u32),
    Up(u32),
    Down(u32),
    Retune(u64, u128),
}

/// Both monitors take their first Assign, and the coordinator their answers; then a change at monitor 1, and k 2 and
/// epsilon 7.
const RETUNED: [Does; 6] = [
    Does::Down(1),
    Does::Down(2),
    Does::Up(1),
    Does::Up(2),
    Does::Raise(1, 1),
    Does::Retune(2, 7),
];

/// What may go on by itself.
const ROUND: [Does; 6] = [
    Does::Check(1),
    Does::Up(1),
    Does::Down(1),
    Does::Check(2),
    Does::Up(2),
    Does::Down(2),
];

fn event(alloc: Global, does: Does) -> Option<Event> {
    Some(match does {
        Does::Raise(mon, f) => Event::Raise(Mon(mon), Feeder(f)),
        Does::Check(mon) => Event::Check(Mon(mon)),
        Does::Up(mon) => Event::Up(Mon(mon)),
        Does::Down(mon) => Event::Down(Mon(mon)),
        Does::Retune(k, epsilon) => Event::retune(alloc, k, epsilon).ok()?,
    })
}

fn logs_over(alloc: Global, names: &Catalog) -> Option<Logs> {
    let first = Part::read(alloc, b"a,5\n", names).ok()?;
    let second = Part::read(alloc, b"b,3\n", names).ok()?;
    let Ok(mut parts) = Vec::with_capacity(alloc, 2) else {
        return None;
    };
    parts.push_reserved((Mon(1), first));
    parts.push_reserved((Mon(2), second));
    Logs::new(alloc, parts, names.len() as u32).ok()
}

/// A change of each monitor.
fn logs(alloc: Global) -> Option<Logs> {
    let names = Catalog::read(alloc, b"a\nb\n").ok()?;
    logs_over(alloc, &names)
}

/// A world over them, with k 1 and epsilon 0.
fn world(alloc: Global) -> Option<World> {
    let settings = Settings::new(1, 0, 1, 2, 2).ok()?;
    let logs = logs(alloc)?;
    if settings.objects() != logs.objects() || settings.monitors() != logs.monitors() {
        drop(logs);
        return None;
    }
    let Ok(from) = logs.start(alloc) else {
        drop(logs);
        return None;
    };
    World::new(alloc, settings, logs, from).ok()
}

fn moves(alloc: Global, world: &mut World, does: Does) -> Option<Moved> {
    let event = event(alloc, does)?;
    world.step(event).ok()
}

/// Makes these events happen, and answers whether none is idle.
fn play(alloc: Global, world: &mut World, does: &[Does]) -> bool {
    for does in does {
        if moves(alloc, world, *does) != Some(Moved::Yes) {
            return false;
        }
    }
    true
}

/// Makes those of these events happen that are enabled.
fn go_on(alloc: Global, world: &mut World, does: &[Does]) -> Option<()> {
    for does in does {
        moves(alloc, world, *does)?;
    }
    Some(())
}

/// Checks and delivers, and answers whether nothing of that is enabled any more.
fn settle(alloc: Global, world: &mut World) -> bool {
    for _ in 0..40 {
        if go_on(alloc, world, &ROUND).is_none() {
            return false;
        }
        if world.is_settled() {
            return true;
        }
    }
    false
}

/// A publication in plain numbers: its number, k, epsilon, whether it is the last, its members, and the
/// place of each monitor.
#[derive(Clone, Copy)]
struct Publishes<'a>(u64, u32, i128, bool, &'a [u32], &'a [u32]);

fn are_members(set: &ObjSet, wanted: &[u32]) -> bool {
    if set.len() != wanted.len() {
        return false;
    }
    for i in 0..set.len() {
        if set.at(i).0 != wanted[i] {
            return false;
        }
    }
    true
}

fn are_places(cut: &Cut, wanted: &[u32]) -> bool {
    if cut.len() != wanted.len() {
        return false;
    }
    for i in 0..cut.len() {
        if cut.at(i).len() != 1 || cut.at(i).at(0) != wanted[i] {
            return false;
        }
    }
    true
}

fn is_published(story: &Story, wanted: Publishes<'_>) -> bool {
    let Publishes(number, k, epsilon, last, members, places) = wanted;
    for entry in story.journal() {
        if let Noted::Published(kept) = entry {
            let p = kept.get();
            if p.number == number {
                return (p.k, p.epsilon, p.last) == (k, epsilon, last)
                    && are_members(&p.members, members)
                    && are_places(&p.cut, places);
            }
        }
    }
    false
}

fn are_changes(changes: &Pairs, wanted: &[(u32, i128)]) -> bool {
    if changes.len() != wanted.len() {
        return false;
    }
    for i in 0..changes.len() {
        let (obj, factor) = changes.at(i);
        if (obj.0, factor) != wanted[i] {
            return false;
        }
    }
    true
}

/// Whether the second Assign to a monitor gives it these factors.
fn has_factors(story: &Story, mon: u32, wanted: &[(u32, i128)]) -> bool {
    for entry in story.journal() {
        if let Noted::Sent(to, kept) = entry
            && to.0 == mon
            && let Frame::Assign {
                seq: 2,
                changes,
                ..
            } = kept.get()
        {
            return are_changes(changes, wanted);
        }
    }
    false
}

/// Whether a story has the sets before and behind the retune, and then the factors of each monitor.
type Seen = (bool, bool, bool, bool);

fn seen_in(story: &Story) -> Seen {
    let first = Publishes(1, 1, 0, false, &[1], &[0, 0]);
    let second = Publishes(2, 2, 7, false, &[1, 2], &[1, 0]);
    (
        is_published(story, first),
        is_published(story, second),
        has_factors(story, 1, &[(1, -1), (2, 2)]),
        has_factors(story, 2, &[(1, 4), (2, 2)]),
    )
}

/// What is seen of a world that is retuned, settles and ends. It ends here alone, since each place that may drop a world
/// or a story is dear to prove.
fn last_seen(alloc: Global, world: World) -> Option<Seen> {
    let mut world = world;
    let done = play(alloc, &mut world, &RETUNED) && settle(alloc, &mut world);
    let Ok(story) = world.into_story() else {
        return None;
    };
    let seen = seen_in(&story);
    drop(story);
    if done { Some(seen) } else { None }
}

/// The same of a new world.
fn seen_of(alloc: Global) -> Option<Seen> {
    match world(alloc) {
        Some(world) => last_seen(alloc, world),
        None => None,
    }
}

#[test]
fn a_retune_deals_by_its_epsilon(rt: HostRuntime) {
    let seen = seen_of(rt.alloc());
    assert!(rt; seen == Some((true, true, true, true)));
}
