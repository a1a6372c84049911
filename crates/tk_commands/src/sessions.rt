//! The input of a coordinator that restarts.

ghost use Rattle.std.specs.Prelude.{◌≡◌, IfOk};
ghost use Rattle.tk_load.specs.Faults.{order_fault, telling};
ghost use Rattle.tk_load.specs.Reads.{AreKept, Counts, Meets, Reads, ReadsOrder, name_in, reads_by};
ghost use Rattle.tk_commands.specs.SessionInput.{LoadsSessions, few_changes, line_kind, lines_tested, session_order_by, session_order_from, session_order_in};
ghost use Rattle.tk_load.specs.Whole.{AreAgreed};
ghost use Rattle.tk_session.specs.Order.{session_order_of};
ghost use Rattle.tk_words.specs.Asked.{AreOfMonitors, asked_sources};

use std::alloc::Global;
use std::marker::Sync;
use std::thread::Threads;
use tk_base::Settings;
use tk_input::{Catalog, Files, Logs, OrderFault, updates_in};
use tk_load::{Basis, InputKind, Status, bad_file, load_basis, read, retune_fault};
use tk_session::{SessionLine, SessionOrder};
use tk_words::Sources;

/// How many changes the sessions of an order may have together.
const MOST_CHANGES: u32 = 4_000_000;

/// What the words of sessions and their files give.
#[derive(Drop)]
pub struct SessionInput {
    pub names: Catalog,
    pub settings: Settings,
    pub logs: Logs,
    /// Where there is none, there is one session.
    pub order: Option<SessionOrder>,
}

/// The events and restarts of an order file.
fn order_of(alloc: Global, bytes: &[u8], file: &str) -> Result<SessionOrder, Status>
    ensures { Meets (λ order. order) (telling (order_fault file.now) (session_order_of bytes.now)) result }
{
    match SessionOrder::read(alloc, bytes) {
        Ok(order) => Ok(order),
        Err(OrderFault::NoMemory) => Err(Status::NoMemory),
        Err(OrderFault::BadOrder(line)) => Err(bad_file(alloc, file, line, InputKind::BadOrder)),
    }
}

/// Whether the sessions of an order have few enough changes together.
fn check_changes(alloc: Global, logs: &Logs, order: &SessionOrder, file: &str) -> Result<(), Status>
    ensures { Meets (λ done. tt) (few_changes logs.now file.now order.now) result }
{
    if order.sessions() * updates_in(logs) > MOST_CHANGES {
        return Err(bad_file(alloc, file, 0, InputKind::TooManyUpdates));
    }
    Ok(())
}

fn line_fault(settings: &Settings, line: &SessionLine) -> Option<InputKind>
    ensures { result ≡ line_kind settings.now line.now }
{
    match line {
        SessionLine::Step(event) => retune_fault(settings, event),
        SessionLine::Restart => None,
    }
}

/// Whether each retune of an order is within the limits.
fn check_lines(
    alloc: Global,
    settings: &Settings,
    order: &SessionOrder,
    file: &str,
) -> Result<(), Status>
    ensures { Meets (λ done. tt) (lines_tested settings.now file.now order.now) result }
{
    for i in 0..order.len() {
        let line = order.line(i);
        if let Some(kind) = line_fault(settings, order.at(i)) {
            return Err(bad_file(alloc, file, line, kind));
        }
    }
    Ok(())
}

/// The order of a file, parsed and tested.
fn tested_order(
    alloc: Global,
    settings: &Settings,
    logs: &Logs,
    bytes: &[u8],
    file: &str,
) -> Result<SessionOrder, Status>
    ensures { Meets (λ order. order) (session_order_by settings.now logs.now file.now bytes.now) result }
{
    let order = match order_of(alloc, bytes, file) {
        Ok(order) => order,
        Err(status) => return Err(status),
    };
    if let Err(status) = check_changes(alloc, logs, &order, file) {
        return Err(status);
    }
    match check_lines(alloc, settings, &order, file) {
        Ok(()) => Ok(order),
        Err(status) => Err(status),
    }
}

fn order_from_file<F: Files>(
    alloc: Global,
    settings: &Settings,
    logs: &Logs,
    files: &mut F,
    file: &str,
) -> Result<SessionOrder, Status>
    ensures read { Reads (reads_by F.Files files.old files.new)
        file.now (λ order. order) (session_order_from settings.now logs.now) result }
    ensures kept { AreKept F.Files files.old files.new }
    ensures counts { Counts (reads_by F.Files files.old files.new) result }
{
    match read(alloc, files, file) {
        Ok(bytes) => tested_order(alloc, settings, logs, bytes.as_slice(), file),
        Err(status) => Err(status),
    }
}

/// The order, where there is a file of one.
fn read_order<F: Files>(
    alloc: Global,
    settings: &Settings,
    logs: &Logs,
    files: &mut F,
    file: Option<&str>,
) -> Result<Option<SessionOrder>, Status>
    ensures read { ReadsOrder (reads_by F.Files files.old files.new)
        (name_in file.entry) (session_order_in settings.now logs.now) result }
    ensures kept { AreKept F.Files files.old files.new }
    ensures counts { Counts (reads_by F.Files files.old files.new) result }
{
    let Some(file) = file else {
        return Ok(None);
    };
    match order_from_file(alloc, settings, logs, files, file) {
        Ok(order) => Ok(Some(order)),
        Err(status) => Err(status),
    }
}

/// Reads all that the words name, in the order of work: the objects, the settings and the width, the logs, the order.
pub fn load_sessions<R: Threads + Sync, F: Files>(
    rt: &R,
    alloc: Global,
    words: &Sources<'_>,
    files: &mut F,
) -> Result<SessionInput, Status>
    requires { AreOfMonitors words.now.logs.items }
    ensures agreed { IfOk result (λ input. AreAgreed input.names input.settings input.logs) }
    ensures read { LoadsSessions (reads_by F.Files files.old files.new) (asked_sources words.now) result }
    ensures kept { AreKept F.Files files.old files.new }
    ensures counts { Counts (reads_by F.Files files.old files.new) result }
{
    let Basis {
        names,
        settings,
        logs,
        ..
    } = match load_basis(rt, alloc, words, files) {
        Ok(basis) => basis,
        Err(status) => return Err(status),
    };
    match read_order(alloc, &settings, &logs, files, words.order) {
        Ok(order) => Ok(SessionInput {
            names,
            settings,
            logs,
            order,
        }),
        Err(status) => Err(status),
    }
}
