//! The journal's entries of frames that are sent: how Assigns, Collects and Stops are made.

ghost use Rattle.std.specs.Prelude.{◌≡◌, ℕ, ◌+◌, ◌-◌, ◌^◌, ◌<◌, ◌≤◌, [], ◌++◌, length, IfOk, OnOk};
ghost use Rattle.std.specs.List.{All};
ghost use Rattle.tk_base.specs.Objects.{objects};
ghost use Rattle.tk_base.specs.Pairs.{objects_of as objects_in};
ghost use Rattle.tk_journal.specs.Entries.{IsEntryOf};
ghost use Rattle.tk_frames.specs.declared.frame.Frame.TheVariants.{Assign, Collect, Stop};
ghost use Rattle.tk_journal.specs.declared.noted.Noted.TheVariants.{Sent};
ghost use Rattle.tk_journal.specs.Turns.{collects as collects_of};
ghost use Rattle.tk_coord.specs.Batches.{AreOf, to_each};
ghost use Rattle.tk_coord.specs.Checks.{AreNamed};
ghost use Rattle.tk_coord.specs.Dealing.{assigns_by, assigns_over, decided_in, is_but as is_but_of, mons_but};

use crate::peer::Peer;
use std::alloc::Global;
use tk_base::{Mon, NoMemory, Obj, ObjSet, Pairs};
use tk_frames::{Frame, KeptFrame};
use tk_journal::Noted;
use tk_rows::Reallocation;

/// The entry of a frame that goes to a monitor.
pub fn sent(alloc: Global, mon: u32, frame: Frame) -> Result<Noted, NoMemory>
    ensures value { IfOk result (λ n. n ≡ Sent (record { 0 = mon }) frame) }
    ensures monitor { (monitors n : ℕ) → 0 < mon → mon ≤ monitors → IfOk result (IsEntryOf monitors n) }
{
    match KeptFrame::new(alloc, frame) {
        Ok(kept) => Ok(Noted::Sent(Mon(mon), kept)),
        Err(_frame) => Err(NoMemory),
    }
}

/// An Assign to a monitor, with a copy of the members.
pub fn assign(
    alloc: Global,
    mon: u32,
    seq: u64,
    members: &ObjSet,
    changes: Pairs,
) -> Result<Noted, NoMemory>
    ensures value { IfOk result (λ n. n ≡ Sent (record { 0 = mon }) (Assign seq members.now changes)) }
    ensures monitor { (monitors n : ℕ) → 0 < mon → mon ≤ monitors → IfOk result (IsEntryOf monitors n) }
{
    let members = match members.try_clone() {
        Ok(members) => members,
        Err(_fault) => {
            drop(changes);
            return Err(NoMemory);
        }
    };
    sent(
        alloc,
        mon,
        Frame::Assign {
            seq,
            members,
            changes,
        },
    )
}

/// A Collect to a monitor, with a copy of the objects.
fn collect(alloc: Global, mon: u32, round: u64, asked: &ObjSet) -> Result<Noted, NoMemory>
    ensures value { IfOk result (λ n. n ≡ Sent (record { 0 = mon }) (Collect round asked.now)) }
    ensures monitor { (monitors n : ℕ) → 0 < mon → mon ≤ monitors → IfOk result (IsEntryOf monitors n) }
{
    let objects = asked.try_clone()?;
    sent(alloc, mon, Frame::Collect { round, objects })
}

/// The objects from 1 to n.
pub fn first_objects(alloc: Global, n: u32) -> Result<ObjSet, NoMemory>
    ensures { IfOk result (λ s. s ≡ objects n) }
{
    let mut list = Vec::with_capacity(alloc, n as usize)?;
    for o in 0..n {
        list.push_reserved(Obj(o + 1));
    }
    match ObjSet::new(list) {
        Ok(objects) => Ok(objects),
        Err(_) => unreachable!(),
    }
}

/// No pairs at all.
pub fn no_pairs(alloc: Global) -> Pairs
    ensures { result ≡ [] }
{
    match Pairs::new(Vec::new(alloc)) {
        Ok(pairs) => pairs,
        Err(_) => unreachable!(),
    }
}

/// No objects at all.
pub fn no_objects(alloc: Global) -> ObjSet
    ensures { result ≡ [] }
{
    match ObjSet::new(Vec::new(alloc)) {
        Ok(objects) => objects,
        Err(_) => unreachable!(),
    }
}

/// The first Assign to each monitor: the members, and no changes.
pub fn first_assigns(alloc: Global, members: &ObjSet, monitors: u32) -> Result<Vec<Noted>, NoMemory>
    ensures value { IfOk result (λ v. v.items ≡ to_each (Assign 1 members.now []) monitors) }
    ensures entries { (n : ℕ) → IfOk result (λ v. All (IsEntryOf monitors n) v.items) }
{
    let mut entries = Vec::with_capacity(alloc, monitors as usize)?;
    for j in 0..monitors {
        entries.push_reserved(assign(alloc, j + 1, 1, members, no_pairs(alloc))?);
    }
    Ok(entries)
}

/// The objects that have a value.
pub fn objects_of(alloc: Global, values: &Pairs) -> Result<ObjSet, NoMemory>
    ensures { IfOk result (λ s. s ≡ objects_in values.now) }
{
    let mut list = Vec::with_capacity(alloc, values.len())?;
    for i in 0..values.len() {
        let (o, _) = values.at(i);
        list.push_reserved(o);
    }
    match ObjSet::new(list) {
        Ok(objects) => Ok(objects),
        Err(_) => unreachable!(),
    }
}

/// Whether the monitor is the one left out.
fn is_but(but: Option<Mon>, mon: u32) -> bool
    ensures { result ≡ is_but_of but mon }
{
    match but {
        None => false,
        Some(but) => mon == but.0,
    }
}

/// A Collect to each monitor but one.
pub fn collects(
    alloc: Global,
    round: u64,
    asked: &ObjSet,
    monitors: u32,
    but: Option<Mon>,
) -> Result<Vec<Noted>, NoMemory>
    ensures value { IfOk result (λ v. v.items ≡ collects_of round asked.now (mons_but monitors but)) }
    ensures entries { (n : ℕ) → IfOk result (λ v. All (IsEntryOf monitors n) v.items) }
{
    let mut entries = Vec::with_capacity(alloc, monitors as usize)?;
    for j in 0..monitors {
        if !is_but(but, j + 1) {
            entries.push_reserved(collect(alloc, j + 1, round, asked)?);
        }
    }
    Ok(entries)
}

/// The number of the next Assign to a monitor.
fn next_assign(peers: &[Peer], mon: Mon) -> Result<u64, NoMemory>
    requires some { 0 < mon.0 }
    requires named { mon.0 ≤ length peers.now }
    ensures value { IfOk result (λ seq. seq ≡ assigns_by peers.now mon.0 + 1) }
    ensures room { IfOk result (λ _. assigns_by peers.now mon.0 < 2 ^ 64 - 1) }
{
    let peer = &peers[mon.0 as usize - 1];
    match peer.assigns.checked_add(1) {
        Some(seq) => Ok(seq),
        None => Err(NoMemory),
    }
}

/// An Assign to each monitor that a reallocation names, with the members and its new factors.
pub fn assigns(
    alloc: Global,
    peers: &[Peer],
    reallocation: &Reallocation,
) -> Result<Vec<Noted>, NoMemory>
    requires { AreNamed (length peers.now) reallocation.now.at.items }
    ensures value { IfOk result (λ v. v.items ≡ assigns_over peers.now (decided_in reallocation.now)) }
    ensures room { IfOk result (λ _. All (λ c. assigns_by peers.now c.mon.0 < 2 ^ 64 - 1) reallocation.now.at.items) }
    ensures entries { (n : ℕ) → IfOk result (λ v. All (IsEntryOf (length peers.now) n) v.items) }
{
    let mut entries = Vec::with_capacity(alloc, reallocation.at.len())?;
    for change in &reallocation.at {
        let seq = next_assign(peers, change.mon)?;
        let changes = change.changes.try_clone()?;
        let members = &reallocation.members;
        entries.push_reserved(assign(alloc, change.mon.0, seq, members, changes)?);
    }
    Ok(entries)
}

/// A Stop to each monitor.
pub fn push_stops(alloc: Global, entries: &mut Vec<Noted>, monitors: u32) -> Result<(), NoMemory>
    ensures value { OnOk result (entries.new.items ≡ entries.old.items ++ to_each Stop monitors) }
    ensures entries { (n : ℕ) → AreOf monitors n entries.old.items → OnOk result (AreOf monitors n entries.new.items) }
{
    for j in 0..monitors {
        entries.push(sent(alloc, j + 1, Frame::Stop)?)?;
    }
    Ok(())
}
