//! What a feeder does in its thread: it reads the records of a stream, and tells them under the lock.

ghost use Rattle.std.specs.Prelude.{◌≡◌, ◌≤◌, ◌∷◌, [], All, IfErr, IfNone, IfSome, OnOk, length};
ghost use Rattle.tk_watch.specs.Each.{Rises, Stops};
ghost use Rattle.tk_watch.specs.Feeding.{Adds, Feeds, Gathers, Pauses, TakesEach, kind_by};
ghost use Rattle.tk_watch.specs.Watch.{IsWatch};
ghost use Rattle.tk_watch.specs.Windows.{IsItemIn, run_on, window_of};

use crate::cell::{WatchCell, WatchName, Watched};
use crate::delivered::Delivered;
use crate::ended::{Given, read_next};
use crate::fault::{FeedFault, FeedKind};
use crate::gathered::Gathered;
use crate::untold::{Untold, untold_of};
use crate::wish::Wish;
use std::alloc::Global;
use std::snapshot::Snapshot;
use std::sync::{Arc, Mutex, Wait};
use std::thread;
use std::thread::Threads;
use tk_base::Feeder;
use tk_input::Catalog;
use tk_stream::{Item, Records, Source, StreamFault};
use tk_wire::{Bell, Wire};

/// At most so many records are told while the lock is held once.
const MOST_AT_ONCE: usize = 256;

/// What the fault of a stream is to the process.
fn kind_of(fault: StreamFault) -> FeedKind
    ensures { result ≡ kind_by fault }
{
    match fault {
        StreamFault::Bad { line, fault } => FeedKind::Bad { line, fault },
        StreamFault::ReadFailed => FeedKind::Unread,
        StreamFault::NoMemory => FeedKind::NoMemory,
    }
}

/// Reads a record or a tick and adds it to those that are there, or says why there is none.
fn gather_one<S: Source + Drop>(
    records: &mut Records<S>,
    f: Feeder,
    names: &Catalog,
    ticks: bool,
    batch: &mut Vec<Item>,
) -> Option<Gathered>
    ensures none { IfNone result (Adds ticks names.now records.old batch.old.items batch.new.items records.new) }
    ensures some { IfSome result (λ gathered. Pauses ticks names.now f gathered records.old records.new) }
    ensures kept { IfSome result (λ _. batch.new.items ≡ batch.old.items) }
{
    match read_next(records, f, names, ticks) {
        Ok(Given::Item(item)) => match batch.push(item) {
            Ok(()) => None,
            Err(_) => Some(Gathered::Failed(FeedKind::NoMemory)),
        },
        Ok(Given::Nothing(ended)) => Some(Gathered::Ended(ended)),
        Err(fault) => Some(Gathered::Failed(kind_of(fault))),
    }
}

/// Whether a batch is told before more is read: none waits, or a tick is the last of it, which may tell many changes.
fn is_whole<S: Source + Drop>(records: &Records<S>, batch: &[Item]) -> bool {
    if !records.is_ready() {
        return true;
    }
    matches!(batch.last(), Some(Item::Tick))
}

/// Reads records up to the end of a tick, or until there are many or none waits.
fn gather<S: Source + Drop>(
    records: &mut Records<S>,
    f: Feeder,
    names: &Catalog,
    ticks: bool,
    batch: &mut Vec<Item>,
) -> Gathered
    requires { batch.old.items ≡ [] }
    ensures gathers { Gathers ticks names.now f records.old batch.new.items result records.new }
    ensures objects { All (IsItemIn (length names.now)) batch.new.items }
{
    for _ in 0..MOST_AT_ONCE {
        if let Some(gathered) = gather_one(records, f, names, ticks, batch) {
            return gathered;
        }
        if is_whole(records, batch.as_slice()) {
            break;
        }
    }
    Gathered::More
}

/// Tells a record, or ends a tick.
fn take_one<W: Wire + Drop, B: Bell + Drop, N: WatchName>(
    watched: &mut Watched<W, B, N>,
    f: Feeder,
    item: Item,
) -> Result<(), Untold>
    requires from_one { 1 ≤ f.0 }
    requires stream { f.0 ≤ N.named.streams }
    requires object { IsItemIn N.named.objects item }
    ensures takes { OnOk result
        (TakesEach watched.old.watch watched.old.windows f (item ∷ []) watched.new.windows watched.new.watch) }
    ensures stops { IfErr result (λ untold.
        Stops watched.old.watch f (run_on (window_of watched.old.windows f.0) (item ∷ [])).told untold watched.new.windows watched.new.watch) }
    ensures kept { IsWatch watched.new.watch }
{
    match item {
        Item::Record(change) => {
            let told = watched.tell(f, change);
            match untold_of(told, change.obj) {
                Some(untold) => Err(untold),
                None => Ok(()),
            }
        }
        Item::Tick => watched.end_tick(f),
    }
}

/// Tells records and ends ticks, one by one, up to the first that does not count.
fn take_each<W: Wire + Drop, B: Bell + Drop, N: WatchName>(
    watched: &mut Watched<W, B, N>,
    f: Feeder,
    batch: &[Item],
) -> Result<(), Untold>
    requires from_one { 1 ≤ f.0 }
    requires stream { f.0 ≤ N.named.streams }
    requires objects { All (IsItemIn N.named.objects) batch.now }
    ensures takes { OnOk result
        (TakesEach watched.old.watch watched.old.windows f batch.now watched.new.windows watched.new.watch) }
    ensures rises { OnOk result
        (Rises watched.old.watch f (run_on (window_of watched.old.windows f.0) batch.now).told watched.new.watch) }
    ensures stops { IfErr result (λ untold.
        Stops watched.old.watch f (run_on (window_of watched.old.windows f.0) batch.now).told untold watched.new.windows watched.new.watch) }
{
    // It is read for its clause, that it is kept.
    let _ = watched.watch.monitor();
    for i in 0..batch.len() {
        if let Err(untold) = take_one(watched, f, batch[i]) {
            return Err(untold);
        }
    }
    Ok(())
}

/// Tells what a stream gave since, and closes it where it has ended.
fn deliver<W: Wire + Drop, B: Bell + Drop, N: WatchName, S: Source + Drop>(
    watched: &mut Watched<W, B, N>,
    f: Feeder,
    names: &Catalog,
    since: &Snapshot<Records<S>>,
    records: &Records<S>,
    ticks: bool,
    batch: &[Item],
    gathered: Gathered,
) -> Delivered
    requires from_one { 1 ≤ f.0 }
    requires stream { f.0 ≤ N.named.streams }
    requires gathers { Gathers ticks names.now f since.now.value batch.now gathered records.now }
    requires objects { All (IsItemIn N.named.objects) batch.now }
    // What it tells are the records that the stream gave, in order, each once; and it closes it behind the last alone.
    ensures { Feeds ticks names.now since.now.value records.now f
        watched.old.watch watched.old.windows result watched.new.windows watched.new.watch }
{
    if watched.is_over() {
        return Delivered::Nothing;
    }
    if let Err(untold) = take_each(watched, f, batch) {
        watched.note_untold(f, untold);
        return Delivered::Stopped(untold);
    }
    match gathered {
        Gathered::More => Delivered::All,
        Gathered::Ended(ended) => {
            watched.close(ended);
            Delivered::Closed
        }
        Gathered::Failed(kind) => {
            watched.note_fault(FeedFault { stream: f, kind });
            Delivered::Failed
        }
    }
}

/// Gives way to the one who serves the connection, where that one wants the lock.
fn give_way(wish: &Wish) {
    if wish.is_set() {
        thread::yield_now();
    }
}

/// Reads the records of a stream and tells them, until it ends or fails, or the process is over. What it found under the lock no
/// clause can tell; `deliver` has the clause of each batch.
fn feed<R: Wait, W: Wire + Drop, B: Bell + Drop, N: WatchName, S: Source + Drop>(
    rt: &R,
    cell: &WatchCell<W, B, N>,
    names: &Catalog,
    f: Feeder,
    records: &mut Records<S>,
    ticks: bool,
    batch: &mut Vec<Item>,
    wish: &Wish,
)
    requires from_one { 1 ≤ f.0 }
    requires stream { f.0 ≤ N.named.streams }
    requires objects { length names.now ≡ N.named.objects }
{
    for _ in rt.forever() {
        batch.clear();
        let skipped = records.skipped();
        let since = Snapshot::of(&*records);
        let gathered = gather(records, f, names, ticks, batch);
        let passed_over = records.skipped().saturating_sub(skipped);
        give_way(wish);
        let mut watched = cell.lock(rt);
        watched.note_skipped(passed_over);
        let delivered = deliver(
            &mut watched,
            f,
            names,
            &since,
            records,
            ticks,
            batch.as_slice(),
            gathered,
        );
        if delivered != Delivered::All {
            break;
        }
    }
}

/// What the feeders of a process share.
#[derive(Drop)]
pub(crate) struct Shared<W: Wire, B, N: WatchName> {
    pub cell: WatchCell<W, B, N>,
    pub names: Catalog,
    /// Whether lines of the streams end their ticks.
    pub ticks: bool,
    pub wish: Wish,
    pub ghost objects_are: { length names ≡ N.named.objects },
}

impl<W: Wire + Drop, B: Bell + Drop, N: WatchName> Shared<W, B, N> {
    /// A watch behind a lock that nobody holds, with the names of its objects.
    pub(crate) fn new(watched: Watched<W, B, N>, names: Catalog, ticks: bool) -> Shared<W, B, N>
        requires { length names ≡ N.named.objects }
    {
        Shared {
            cell: Mutex::new(watched),
            names,
            ticks,
            wish: Wish::new(),
        }
    }
}

/// Starts the feeder of a stream in a thread of its own, which outlives this call. Says whether a thread could be made.
pub(crate) fn start<
    R: Threads + Wait + Copy + Send + 'static,
    W: Wire + Send + Drop + 'static,
    B: Bell + Send + Drop + 'static,
    N: WatchName + Send + 'static,
    S: Source + Send + Drop + 'static,
>(
    rt: R,
    alloc: Global,
    shared: Arc<Shared<W, B, N>, Global>,
    f: Feeder,
    records: Records<S>,
) -> bool
    requires from_one { 1 ≤ f.0 }
    requires stream { f.0 ≤ N.named.streams }
{
    let Ok(batch) = Vec::with_capacity(alloc, MOST_AT_ONCE) else {
        return false;
    };
    let run = move ||
        requires from_one { 1 ≤ f.0 }
        requires stream { f.0 ≤ N.named.streams }
    {
        let mut records = records;
        let mut batch = batch;
        feed(
            &rt,
            &shared.cell,
            &shared.names,
            f,
            &mut records,
            shared.ticks,
            &mut batch,
            &shared.wish,
        )
    };
    thread::spawn(&rt, run).is_ok()
}
