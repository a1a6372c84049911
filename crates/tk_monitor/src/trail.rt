//! How a monitor keeps its trail: a raise takes no memory, a frame has its room made first.

ghost use Rattle.std.specs.Prelude.{◌≡◌, ◌+◌, ◌-◌, ◌^◌, ◌<◌, [], ◌∷◌, ◌++◌, length, IfOk, OnOk, Some, slice_get};
ghost use Rattle.tk_trail.specs.Readings.{sent_by};

use std::alloc::Global;
use std::marker::Model;
use tk_base::{Feeder, NoMemory};
use tk_frames::{Frame, KeptFrame};
use tk_trail::Entry;

/// The trail of a monitor, with room for all raises that are left.
#[derive(Debug, Drop)]
pub(crate) struct Trail {
    entries: Vec<Entry>,
    sent_places: Vec<usize>,
    raises: usize,
    spare: usize,
}

impl Model for Trail {
    ghost use Rattle.std.specs.Prelude.{length};
    ghost use Rattle.std.specs.Vec.{vec_capacity};
    ghost use Rattle.tk_monitor.specs.Trail.{TrailView, HasRoom, ArePlacesSent};

    ghost Value = { TrailView };

    ghost view = { λ l. record {
      entries = l.entries.items;
      raises = l.raises;
      spare = l.spare;
    } };

    ghost invariant = { λ l.
        HasRoom (length l.entries.items) (vec_capacity l.entries) l.raises l.spare
        × HasRoom (length l.sent_places.items) (vec_capacity l.sent_places) 0 l.spare
        × ArePlacesSent l.entries.items l.sent_places.items };
}

impl Trail {
    ghost use Rattle.tk_trail.specs.declared.entry.Entry.TheVariants.{Raised, Took, Sent};

    /// An empty trail, with room for so many raises.
    pub fn new(alloc: Global, raises: usize) -> Result<Trail, NoMemory>
        requires { raises < 2 ^ 32 }
        ensures { IfOk result (λ l. l ≡ record { entries = []; raises = raises; spare = 0 }) }
    {
        Ok(Trail {
            entries: Vec::with_capacity(alloc, raises)?,
            sent_places: Vec::new(alloc),
            raises,
            spare: 0,
        })
    }

    /// Where its memory comes from.
    pub fn alloc(&self) -> Global {
        *self.entries.allocator()
    }

    /// What the monitor did so far.
    pub fn entries(&self) -> &[Entry]
        ensures { result.now ≡ self.now.entries }
    {
        self.entries.as_slice()
    }

    /// For how many raises room is kept.
    pub fn raises(&self) -> usize
        ensures { result ≡ self.now.raises }
    {
        self.raises
    }

    /// Makes room for a frame and its answer beside that for the raises.
    pub fn reserve(&mut self) -> Result<(), NoMemory>
        ensures ok { OnOk result (self.new.spare ≡ 2) }
        ensures entries { self.new.entries ≡ self.old.entries }
        ensures raises { self.new.raises ≡ self.old.raises }
    {
        self.spare = 0;
        self.entries.reserve(self.raises + 2)?;
        self.sent_places.reserve(2)?;
        self.spare = 2;
        Ok(())
    }

    /// Notes a raise, without memory.
    pub fn raised(&mut self, f: Feeder)
        requires { 0 < self.old.raises }
        ensures { self.new ≡ record self.old {
          entries = self.old.entries ++ Raised f ∷ [];
          raises = self.old.raises - 1;
        } }
    {
        self.entries.push_reserved(Entry::Raised(f));
        self.raises -= 1;
    }

    /// Keeps room that was made for an entry for one raise more.
    pub fn keep_raise(&mut self)
        requires spare { 0 < self.old.spare }
        requires few { self.old.raises + 1 < 2 ^ 32 }
        ensures { self.new ≡ record self.old {
          raises = self.old.raises + 1;
          spare = self.old.spare - 1;
        } }
    {
        self.raises += 1;
        self.spare -= 1;
    }

    /// Notes a frame that was taken, for which there is room.
    pub fn took(&mut self, frame: KeptFrame)
        requires { 0 < self.old.spare }
        ensures { self.new ≡ record self.old {
          entries = self.old.entries ++ Took frame ∷ [];
          spare = self.old.spare - 1;
        } }
    {
        self.entries.push_reserved(Entry::Took(frame));
        self.spare -= 1;
    }

    /// Notes a frame that is sent, for which there is room.
    pub fn sent(&mut self, frame: KeptFrame)
        requires { 0 < self.old.spare }
        ensures { self.new ≡ record self.old {
          entries = self.old.entries ++ Sent frame ∷ [];
          spare = self.old.spare - 1;
        } }
    {
        self.sent_places.push_reserved(self.entries.len());
        self.entries.push_reserved(Entry::Sent(frame));
        self.spare -= 1;
    }

    /// How many frames were sent.
    pub fn sent_len(&self) -> usize
        ensures { result ≡ length (sent_by self.now.entries) }
    {
        self.sent_places.len()
    }

    /// The frame that was sent at a place from 0.
    pub fn sent_at(&self, i: usize) -> &Frame
        requires { i < length (sent_by self.now.entries) }
        ensures { slice_get (sent_by self.now.entries) i ≡ Some result.now }
    {
        match &self.entries[self.sent_places[i]] {
            Entry::Sent(frame) => frame.get(),
            _ => unreachable!(),
        }
    }
}
