// The journal, with the places of the frames that were sent to each monitor, and of the publications.
ghost use Rattle.std.specs.Prelude.{◌≡◌, ℕ, ◌+◌, ◌-◌, ◌^◌, ◌<◌, ◌≤◌, List, ◌∷◌, [], ◌++◌, length, IfOk, OnOk, Some, slice_get, vec_len, vec_capacity};
ghost use Rattle.std.specs.List.{All};
ghost use Rattle.tk_journal.specs.Links.{frames_to};
ghost use Rattle.tk_journal.specs.Publishing.{publications, published_in};
ghost use Rattle.tk_journal.specs.declared.noted.Noted.{Noted};
ghost use Rattle.tk_coord.specs.Journal.{AreIndexed, HasRoom, IsForOneOf, KeepsRoom, NotesPublished, NotesSent};

use std::alloc::{AllocError, Global};
use std::marker::Model;
use tk_base::{Mon, NoMemory};
use tk_frames::Frame;
use tk_journal::{Noted, Publication};

/// What a coordinator did, with room for what it does next.
#[derive(Drop)]
pub struct Journal {
    entries: Vec<Noted>,
    /// For each monitor, ascending, the places of the frames sent to it, in order.
    sent: Vec<Vec<usize>>,
    /// The places of the publications, in order.
    published: Vec<usize>,
    spare: usize,
}

impl Model for Journal {
    ghost use Rattle.std.specs.Prelude.{◌+◌, ◌≤◌, length, vec_capacity};
    ghost use Rattle.tk_journal.specs.Publishing.{published_in};
    ghost use Rattle.tk_coord.specs.Journal.{AreIndexed, HasRoom, IsIndex, JournalView};

    ghost Value = { JournalView };

    ghost view = { λ k. record {
      monitors = length k.sent.items;
      entries = k.entries.items;
      spare = k.spare;
    } };

    ghost invariant = { λ k. (length k.entries.items + k.spare ≤ vec_capacity k.entries)
        × (length k.published.items + k.spare ≤ vec_capacity k.published)
        × HasRoom k.spare k.sent.items
        × AreIndexed k.entries.items k.sent.items
        × IsIndex published_in k.entries.items k.published.items };
}

/// An empty list of places for each monitor.
fn no_places(alloc: Global, monitors: u32) -> Result<Vec<Vec<usize>>, NoMemory>
    ensures monitors { IfOk result (λ sent. vec_len sent ≡ monitors) }
    ensures sent { IfOk result (λ sent. AreIndexed [] sent.items) }
{
    let mut sent = Vec::with_capacity(alloc, monitors as usize)?;
    for j in 0..monitors {
        sent.push_reserved(Vec::new(alloc));
    }
    Ok(sent)
}

/// Takes room in each list for so many places more.
fn reserve_each(sent: &mut [Vec<usize>], more: usize) -> Result<(), AllocError>
    ensures same { length sent.new ≡ length sent.old }
    ensures room { OnOk result (HasRoom more sent.new) }
    ensures kept { (journal : List Noted) → AreIndexed journal sent.old → AreIndexed journal sent.new }
{
    for places in sent.iter_mut() {
        places.reserve(more)?;
    }
    Ok(())
}

/// Notes the place of one entry, where it is one that was sent or published.
fn note_entry(sent: &mut [Vec<usize>], published: &mut Vec<usize>, entry: &Noted, place: usize)
    requires monitor { IsForOneOf (length sent.old) entry.now }
    requires room { HasRoom 1 sent.old }
    requires published_room { vec_len published.old < vec_capacity published.old }
    ensures same { length sent.new ≡ length sent.old }
    ensures sent { NotesSent place entry.now sent.old sent.new }
    ensures published { NotesPublished place entry.now published.old.items published.new.items }
    ensures room { (n : ℕ) → HasRoom (n + 1) sent.old → HasRoom n sent.new }
    ensures published_room { KeepsRoom published.old published.new }
{
    match entry {
        Noted::Got(_, _) => {}
        Noted::Tuned(_, _) => {}
        Noted::Sent(mon, _) => sent[mon.0 as usize - 1].push_reserved(place),
        Noted::Published(_) => published.push_reserved(place),
    }
}

impl Journal {
    /// An empty journal.
    pub fn new(alloc: Global, monitors: u32) -> Result<Journal, NoMemory>
        ensures { IfOk result (λ k. k ≡ record { monitors = monitors; entries = []; spare = 0 }) }
    {
        Ok(Journal {
            entries: Vec::new(alloc),
            sent: no_places(alloc, monitors)?,
            published: Vec::new(alloc),
            spare: 0,
        })
    }

    /// A journal of these entries.
    pub fn with_entries(
        alloc: Global,
        monitors: u32,
        entries: Vec<Noted>,
    ) -> Result<Journal, NoMemory>
        requires { All (IsForOneOf monitors) entries.items }
        ensures entries { IfOk result (λ k. k.entries ≡ entries.items) }
        ensures monitors { IfOk result (λ k. k.monitors ≡ monitors) }
    {
        let mut journal = Journal::new(alloc, monitors)?;
        journal.reserve(entries.len())?;
        journal.append(entries);
        Ok(journal)
    }

    /// Where its memory comes from.
    pub fn alloc(&self) -> Global {
        *self.entries.allocator()
    }

    /// The entries, in order.
    pub fn entries(&self) -> &[Noted]
        ensures { result.now ≡ self.now.entries }
    {
        self.entries.as_slice()
    }

    /// Takes room for so many entries more, wherever they are noted.
    pub fn reserve(&mut self, more: usize) -> Result<(), NoMemory>
        ensures room { OnOk result (self.new.spare ≡ more) }
        ensures entries { self.new.entries ≡ self.old.entries }
        ensures monitors { self.new.monitors ≡ self.old.monitors }
    {
        self.spare = 0;
        self.entries.reserve(more)?;
        self.published.reserve(more)?;
        reserve_each(self.sent.as_mut_slice(), more)?;
        self.spare = more;
        Ok(())
    }

    /// Appends an entry, for which there is room.
    pub fn push(&mut self, entry: Noted)
        requires monitor { IsForOneOf self.old.monitors entry }
        requires room { 0 < self.old.spare }
        ensures { self.new ≡ record self.old {
          entries = self.old.entries ++ entry ∷ [];
          spare = self.old.spare - 1;
        } }
    {
        let sent = self.sent.as_mut_slice();
        note_entry(sent, &mut self.published, &entry, self.entries.len());
        self.entries.push_reserved(entry);
        self.spare -= 1;
    }

    /// Appends entries, for which there is room.
    pub fn append(&mut self, entries: Vec<Noted>)
        requires monitors { All (IsForOneOf self.old.monitors) entries.items }
        requires room { length entries.items ≤ self.old.spare }
        ensures entries { self.new.entries ≡ self.old.entries ++ entries.items }
        ensures monitors { self.new.monitors ≡ self.old.monitors }
    {
        for entry in entries {
            self.push(entry);
        }
    }

    /// How many sets were published.
    pub fn published(&self) -> usize
        ensures value { result ≡ length (publications self.now.entries) }
        ensures few { result < 2 ^ 64 - 1 }
    {
        self.published.len()
    }

    /// The publication at a place from 0.
    pub fn publication(&self, i: usize) -> &Publication
        requires { i < length (publications self.now.entries) }
        ensures { slice_get (publications self.now.entries) i ≡ Some result.now }
    {
        match &self.entries[self.published[i]] {
            Noted::Published(publication) => publication.get(),
            _ => unreachable!(),
        }
    }

    /// How many frames of every kind were sent to a monitor.
    pub fn sent(&self, mon: Mon) -> usize
        requires some_monitor { 0 < mon.0 }
        requires monitor { mon.0 ≤ self.now.monitors }
        ensures { result ≡ length (frames_to mon.0 self.now.entries) }
    {
        self.sent[mon.0 as usize - 1].len()
    }

    /// The frame at a place from 0 among those sent to a monitor.
    pub fn sent_at(&self, mon: Mon, i: usize) -> &Frame
        requires some_monitor { 0 < mon.0 }
        requires monitor { mon.0 ≤ self.now.monitors }
        requires within { i < length (frames_to mon.0 self.now.entries) }
        ensures { slice_get (frames_to mon.0 self.now.entries) i ≡ Some result.now }
    {
        match &self.entries[self.sent[mon.0 as usize - 1][i]] {
            Noted::Sent(_, frame) => frame.get(),
            _ => unreachable!(),
        }
    }
}
