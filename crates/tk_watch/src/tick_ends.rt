//! What is kept of the ends of ticks until they are told.

ghost use Rattle.std.specs.Prelude.{◌≡◌, ◌<◌, ◌≤◌, IfOk, IfSome, length};
ghost use Rattle.tk_watch.specs.Ends.{counted_in, ends_for, noted_at};

use crate::plan::Window;
use crate::tick_end::TickEnd;
use std::alloc::Global;
use std::marker::Model;
use tk_base::{Feeder, NoMemory};

/// How many ticks of each stream that has a window have ended, the last ends at which nothing was left to be taken back, and
/// whether one of these was not told.
#[derive(Drop)]
pub struct TickEnds {
    ended: Vec<u64>,
    last: TickEnd,
    pending: bool,
}

impl Model for TickEnds {
    ghost use Rattle.tk_watch.specs.Ends.{TickEndsView};

    ghost Value = { TickEndsView };

    ghost view = { λ e. record { ended = e.ended.items; last = e.last } };
}

impl TickEnds {
    /// Of streams that stand at these places and have ended none, where a window is asked for.
    pub(crate) fn new(
        alloc: Global,
        window: Option<Window>,
        places: &[u64],
    ) -> Result<TickEnds, NoMemory>
        ensures { IfOk result (λ e. e ≡ ends_for window places.now) }
    {
        if window.is_none() {
            return Ok(TickEnds {
                ended: Vec::new(alloc),
                last: TickEnd::none(alloc),
                pending: false,
            });
        }
        Ok(TickEnds {
            ended: Vec::from_elem(alloc, 0, places.len())?,
            last: TickEnd::new(alloc, places)?,
            pending: false,
        })
    }

    /// One more tick of a stream has ended.
    pub(crate) fn count(&mut self, f: Feeder)
        requires { 1 ≤ f.0 }
        ensures { self.new ≡ counted_in self.old f.0 }
    {
        let i = (f.0 - 1) as usize;
        if i < self.ended.len() {
            self.ended[i] = self.ended[i].saturating_add(1);
        }
    }

    /// What its last one moved out of the window was taken back, up to this place.
    pub(crate) fn note(&mut self, f: Feeder, place: u64)
        requires { 1 ≤ f.0 }
        ensures { self.new ≡ noted_at self.old f.0 place }
    {
        let ended = self.ended.get((f.0 - 1) as usize).copied().unwrap_or(0);
        self.last.note(f, ended, place);
        self.pending = true;
    }

    /// The last ends, if one was not told. They are told with that.
    pub(crate) fn take(&mut self, alloc: Global) -> Result<Option<TickEnd>, NoMemory>
        ensures kept { self.new ≡ self.old }
        ensures last { IfOk result (λ told. IfSome told (λ end. end ≡ self.old.last)) }
        ensures some { IfOk result (λ told. IfSome told (λ end. 0 < length self.old.ended)) }
    {
        if !self.pending || self.ended.is_empty() {
            return Ok(None);
        }
        let last = self.last.try_clone(alloc)?;
        self.pending = false;
        Ok(Some(last))
    }
}
