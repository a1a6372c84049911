//! A watch under a lock, named so that proofs know which watch is found behind it.

ghost use Rattle.std.specs.Prelude.{◌≡◌, ◌≤◌, None, false, IfErr, IfOk, IfSome, OnErr, OnOk};
ghost use Rattle.tk_input.specs.Logs.{IsObject};
ghost use Rattle.tk_watch.specs.Connections.{HasJoined, IsOver};
ghost use Rattle.tk_watch.specs.Ends.{AreEnds, HaveTicked, ends_for};
ghost use Rattle.tk_watch.specs.Fresh.{IsUncounted, windows_for};
ghost use Rattle.tk_watch.specs.Names.{nobody};
ghost use Rattle.tk_watch.specs.Told.{Closes, Tells};
ghost use Rattle.tk_watch.specs.Watch.{IsWatch, Named, named_of};
ghost use Rattle.tk_watch.specs.Windows.{AreBalanced, AreWindows, Notes, TellsWithin};
ghost use Rattle.tk_wire.specs.Net.{IsNew};

mod ticking;

use crate::attended::Attended;
use crate::cause::Cause;
use crate::ended::Ended;
use crate::fault::FeedFault;
use crate::plan::Window;
use crate::tick_end::TickEnd;
use crate::tick_ends::TickEnds;
use crate::timing::{clock_of, windows_of};
use crate::told::Told;
use crate::turned::Turned;
use crate::watch::Watch;
use crate::windows::Windows;
use std::alloc::Global;
use std::marker::{Brand, PhantomData};
use std::sync::Mutex;
use std::time::Instant;
use tk_base::{Feeder, NoMemory};
use tk_input::Change;
use tk_monitor::Raised;
use tk_recent::Metronome;
use tk_wire::{Bell, Dialed, Wire};

/// Which watch lies under a lock. A name has no calls: it exists in proofs alone, and the call that locks a watch picks it.
pub trait WatchName {
    /// What no call changes of it.
    ghost named: { Named };
}

impl WatchName for Brand {
    ghost named = { nobody };
}

/// A watch that has what its name says, whenever its lock is got, and values that are what the windows of its streams hold, where
/// there are windows; with what its threads tell one another.
#[derive(Drop)]
pub struct Watched<W: Wire, B, N: WatchName> {
    pub watch: Watch<W>,
    pub windows: Windows,
    /// Where their ticks ended.
    pub ends: TickEnds,
    // Ends the ticks of all streams, where a clock does.
    clock: Option<Metronome>,
    // Wakes the one who serves the connection.
    bell: Option<B>,
    // The first fault of a stream.
    fault: Option<FeedFault>,
    // How many lines of all streams were passed over.
    skipped: u64,
    of: PhantomData<N>,
    pub ghost named_is: { named_of watch ≡ N.named },
    pub ghost are_windows: { AreWindows N.named windows },
    pub ghost balanced: { AreBalanced watch.monitor windows },
    pub ghost are_ends: { AreEnds W N.named windows ends },
}

/// A watch under a lock.
pub type WatchCell<W, B, N> = Mutex<Watched<W, B, N>>;

impl<W: Wire + Drop, B: Bell + Drop, N: WatchName> Watched<W, B, N> {
    /// A watch that has counted nothing, with the windows of its streams where one is asked for. Where a clock ends their ticks, the
    /// first begin now.
    pub fn new(
        alloc: Global,
        watch: Watch<W>,
        window: Option<Window>,
        now: Instant,
    ) -> Result<Watched<W, B, N>, NoMemory>
        requires named { named_of watch ≡ N.named }
        requires uncounted { IsUncounted watch }
        ensures watch { IfOk result (λ watched. watched.watch ≡ watch) }
        ensures windows { IfOk result (λ watched. watched.windows ≡ windows_for window N.named.streams N.named.objects) }
        ensures ends { IfOk result (λ watched. watched.ends ≡ ends_for window watch.counts) }
    {
        let streams = watch.counts().len() as u32;
        let objects = watch.monitor().settings().objects();
        let Ok(windows) = windows_of(alloc, window, streams, objects) else {
            drop(watch);
            return Err(NoMemory);
        };
        let Ok(ends) = TickEnds::new(alloc, window, watch.counts()) else {
            drop(watch);
            drop(windows);
            return Err(NoMemory);
        };
        Ok(Watched {
            watch,
            windows,
            ends,
            clock: clock_of(window, now),
            bell: None,
            fault: None,
            skipped: 0,
            of: PhantomData,
        })
    }

    /// Wakes the one who serves the connection.
    fn ring(&self) {
        if let Some(bell) = &self.bell {
            bell.ring();
        }
    }

    /// Wakes that one where something broke, or where the monitor began anew.
    fn ring_for(&self, told: Told, was_broken: bool) {
        match told {
            Told::Done { broken, fresh } => {
                if fresh || broken && !was_broken {
                    self.ring();
                }
            }
            Told::Closed => {}
            Told::TooGreat => {}
            Told::NoMemory => {}
        }
    }

    /// Counts a record of a stream, and notes it in its window, where there is one. The bell rings where something broke, or where
    /// the monitor began anew.
    pub fn tell(&mut self, f: Feeder, change: Change) -> Told
        requires from_one { 1 ≤ f.0 }
        requires stream { f.0 ≤ N.named.streams }
        requires object { IsObject N.named.objects change.obj.0 }
        ensures tells { TellsWithin self.old.windows self.old.watch f (change.obj.0, change.by) result self.new.watch }
        ensures notes { Notes self.old.windows f.0 (change.obj.0, change.by) result self.new.windows }
        ensures kept { IsWatch self.new.watch }
    {
        let was_broken = self.watch.monitor().broken();
        if !self.windows.fits(f, change) {
            return Told::TooGreat;
        }
        let told = self.watch.tell(f, change);
        // It is read for its clause, that it is kept.
        let _ = self.watch.monitor();
        self.windows.note_told(f, change, told);
        self.ring_for(told, was_broken);
        told
    }

    /// Raises the closing record of a stream that has ended, and rings.
    pub fn close(&mut self, ended: Ended) -> Raised
        requires from_one { 1 ≤ ended.stream.0 }
        requires stream { ended.stream.0 ≤ N.named.streams }
        ensures closes { Closes self.old.watch ended.stream result self.new.watch }
        ensures windows { self.new.windows ≡ self.old.windows }
    {
        // It is read for its clause, that it is kept.
        let _ = self.watch.monitor();
        let raised = self.watch.close(ended);
        self.ring();
        raised
    }

    /// Notes that lines were passed over.
    pub(crate) fn note_skipped(&mut self, count: u64)
        ensures watch { self.new.watch ≡ self.old.watch }
        ensures windows { self.new.windows ≡ self.old.windows }
    {
        self.skipped = self.skipped.saturating_add(count);
    }

    /// Notes the fault of a stream, unless another was noted before, and rings.
    pub(crate) fn note_fault(&mut self, fault: FeedFault)
        ensures watch { self.new.watch ≡ self.old.watch }
        ensures windows { self.new.windows ≡ self.old.windows }
    {
        if self.fault.is_none() {
            self.fault = Some(fault);
        }
        self.ring();
    }

    /// The first fault of a stream.
    pub(crate) fn fault(&self) -> Option<FeedFault> {
        self.fault
    }

    /// Whether a feeder has nothing to do any more: Stop was taken, or a stream ends the process.
    pub(crate) fn is_over(&self) -> bool {
        self.fault.is_some() || self.watch.monitor().stopped()
    }

    /// Shuts the connection.
    pub(crate) fn leave(&mut self)
        ensures { self.new.watch.monitor ≡ self.old.watch.monitor }
    {
        self.watch.leave();
        self.bell = None;
    }

    /// Where the ticks of the streams ended last, if one did since that was told.
    pub(crate) fn take_end(&mut self, alloc: Global) -> Result<Option<TickEnd>, NoMemory>
        ensures { IfOk result (λ told. IfSome told (HaveTicked W N.named)) }
    {
        self.ends.take(alloc)
    }

    /// One look at the connection.
    pub(crate) fn look(&mut self, alloc: Global) -> Result<Attended, NoMemory>
        ensures { IfOk result (λ attended. IsOver W N.named attended) }
    {
        if let Some(fault) = self.fault {
            return Ok(Attended::Fed(fault));
        }
        match self.watch.turn() {
            Turned::More => Ok(Attended::More),
            Turned::Quiet => Ok(Attended::Quiet),
            Turned::Left(cause) => Ok(Attended::Left(cause)),
            Turned::Stopped => Ok(Attended::Stopped {
                counts: Vec::from_slice(alloc, self.watch.counts())?,
                skipped: self.skipped,
            }),
        }
    }
}

impl<W: Dialed + Drop, B: Bell + Drop, N: WatchName> Watched<W, B, N> {
    /// Begins a connection over a link that was dialed, with the bell of the one who serves it, and answers how many records
    /// each stream gave.
    pub(crate) fn begin(&mut self, alloc: Global, link: W, bell: B) -> Result<Vec<u64>, NoMemory>
        requires new { IsNew W.Wire.tells (W.Wire.traffic link) (W.Wire.counts link) }
        requires once { W.greeted link ≡ false }
        ensures { IfOk result (λ counts. HasJoined W N.named counts.items) }
    {
        let counts = Vec::from_slice(alloc, self.watch.counts())?;
        self.watch.begin(alloc, link)?;
        self.bell = Some(bell);
        Ok(counts)
    }
}
