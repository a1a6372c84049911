//! The input of several queries.

ghost use Rattle.std.specs.Prelude.{◌≡◌, IfOk, All, None, length};
ghost use Rattle.tk_commands.specs.MultiInput.{LoadsMulti, all_logs_in, alones_in, multi_order_from, multi_order_in, multi_order_of_file, queries_from, queries_in};
ghost use Rattle.tk_load.specs.Reads.{AreKept, Counts, Meets, Reads, ReadsLogs, ReadsOrder, name_in, reads_by};
ghost use Rattle.tk_multi.specs.Alone.{AreOfOneSize};
ghost use Rattle.tk_words.specs.Asked.{AreOfMonitors, asked_logs, asked_multi};

use std::alloc::Global;
use std::marker::Sync;
use std::thread::Threads;
use tk_base::Mon;
use tk_input::{Catalog, CatalogFault, Files, Logs, OrderFault};
use tk_load::{
    InputKind, Status, bad_file, bad_whole, kind_of, logs_from, parts_of, read, read_names,
};
use tk_multi::{Alone, MultiFault, MultiOrder, Queries, each_alone};
use tk_words::Multi;

/// What the words of several queries and their files give.
#[derive(Drop)]
pub struct MultiInput {
    pub queries: Queries,
    /// The common logs.
    pub logs: Logs,
    /// What each query runs over alone, in order.
    pub alones: Vec<Alone>,
    pub order: Option<MultiOrder>,
}

/// The queries of a file.
fn queries_of(alloc: Global, bytes: &[u8], file: &str) -> Result<Queries, Status>
    ensures { Meets (λ queries. queries) (queries_from file.now bytes.now) result }
{
    match Queries::read(alloc, bytes) {
        Ok(queries) => Ok(queries),
        Err(CatalogFault::NoMemory) => Err(Status::NoMemory),
        Err(CatalogFault::Empty) => Err(bad_file(alloc, file, 0, InputKind::Empty)),
        Err(CatalogFault::TooMany) => Err(bad_file(alloc, file, 0, InputKind::TooMany)),
        Err(CatalogFault::BadRow(line)) => Err(bad_file(alloc, file, line, InputKind::BadRow)),
        Err(CatalogFault::BadName(line)) => Err(bad_file(alloc, file, line, InputKind::BadName)),
        Err(CatalogFault::Repeated(line)) => Err(bad_file(alloc, file, line, InputKind::Repeated)),
    }
}

fn read_queries<F: Files>(alloc: Global, files: &mut F, file: &str) -> Result<Queries, Status>
    ensures read { Reads (reads_by F.Files files.old files.new) file.now (λ queries. queries) queries_in result }
    ensures kept { AreKept F.Files files.old files.new }
    ensures counts { Counts (reads_by F.Files files.old files.new) result }
{
    match read(alloc, files, file) {
        Ok(bytes) => queries_of(alloc, bytes.as_slice(), file),
        Err(status) => Err(status),
    }
}

/// The logs of all monitors together.
pub fn all_logs<R: Threads + Sync, F: Files>(
    rt: &R,
    alloc: Global,
    words: &[(Mon, &str)],
    names: &Catalog,
    files: &mut F,
) -> Result<Logs, Status>
    requires monitors { AreOfMonitors words.now }
    ensures objects { IfOk result (λ logs. logs.objects ≡ length names.now) }
    ensures read { ReadsLogs (reads_by F.Files files.old files.new)
        (asked_logs words.now) (λ logs. logs) (all_logs_in names.now) result }
    ensures kept { AreKept F.Files files.old files.new }
    ensures counts { Counts (reads_by F.Files files.old files.new) result }
{
    let parts = match parts_of(rt, alloc, words, names, None, files) {
        Ok(parts) => parts,
        Err(status) => return Err(status),
    };
    logs_from(alloc, parts.as_slice(), names.len() as u32)
}

/// What each query runs over alone.
fn alones_of(
    alloc: Global,
    names: &Catalog,
    logs: &Logs,
    queries: &Queries,
    file: &str,
) -> Result<Vec<Alone>, Status>
    ensures count { IfOk result (λ alones. length alones.items ≡ length queries.now) }
    ensures sizes { IfOk result (λ alones. All AreOfOneSize alones.items) }
    ensures meets { Meets (λ alones. alones.items) (alones_in file.now names.now logs.now queries.now) result }
{
    match each_alone(alloc, names, logs, queries) {
        Ok(alones) => Ok(alones),
        Err(MultiFault::NoMemory) => Err(Status::NoMemory),
        Err(MultiFault::Bad { query, fault }) => Err(bad_file(alloc, file, query, kind_of(fault))),
        Err(MultiFault::TooManyUpdates) => Err(bad_whole(alloc, InputKind::TooManyUpdates)),
    }
}

/// The events of an order file.
fn order_of(alloc: Global, bytes: &[u8], file: &str) -> Result<MultiOrder, Status>
    ensures { Meets (λ order. order) (multi_order_from file.now bytes.now) result }
{
    match MultiOrder::read(alloc, bytes) {
        Ok(order) => Ok(order),
        Err(OrderFault::NoMemory) => Err(Status::NoMemory),
        Err(OrderFault::BadOrder(line)) => Err(bad_file(alloc, file, line, InputKind::BadOrder)),
    }
}

fn order_from_file<F: Files>(alloc: Global, files: &mut F, file: &str) -> Result<MultiOrder, Status>
    ensures read { Reads (reads_by F.Files files.old files.new) file.now (λ order. order) multi_order_of_file result }
    ensures kept { AreKept F.Files files.old files.new }
    ensures counts { Counts (reads_by F.Files files.old files.new) result }
{
    match read(alloc, files, file) {
        Ok(bytes) => order_of(alloc, bytes.as_slice(), file),
        Err(status) => Err(status),
    }
}

/// The order, where there is a file of one.
fn read_order<F: Files>(
    alloc: Global,
    files: &mut F,
    file: Option<&str>,
) -> Result<Option<MultiOrder>, Status>
    ensures read { ReadsOrder (reads_by F.Files files.old files.new) (name_in file.entry) multi_order_in result }
    ensures kept { AreKept F.Files files.old files.new }
    ensures counts { Counts (reads_by F.Files files.old files.new) result }
{
    let Some(file) = file else {
        return Ok(None);
    };
    match order_from_file(alloc, files, file) {
        Ok(order) => Ok(Some(order)),
        Err(status) => Err(status),
    }
}

/// Reads all that the words name, in the order of work: the objects, the queries, the logs, what each query runs over
/// alone, the order.
pub fn load_multi<R: Threads + Sync, F: Files>(
    rt: &R,
    alloc: Global,
    words: &Multi<'_>,
    files: &mut F,
) -> Result<MultiInput, Status>
    requires { AreOfMonitors words.now.logs.items }
    ensures count { IfOk result (λ input. length input.alones.items ≡ length input.queries) }
    ensures sizes { IfOk result (λ input. All AreOfOneSize input.alones.items) }
    ensures read { LoadsMulti (reads_by F.Files files.old files.new) (asked_multi words.now) result }
    ensures kept { AreKept F.Files files.old files.new }
    ensures counts { Counts (reads_by F.Files files.old files.new) result }
{
    let names = match read_names(alloc, files, words.objects) {
        Ok(names) => names,
        Err(status) => return Err(status),
    };
    let queries = match read_queries(alloc, files, words.queries) {
        Ok(queries) => queries,
        Err(status) => return Err(status),
    };
    let logs = match all_logs(rt, alloc, words.logs.as_slice(), &names, files) {
        Ok(logs) => logs,
        Err(status) => return Err(status),
    };
    let alones = match alones_of(alloc, &names, &logs, &queries, words.queries) {
        Ok(alones) => alones,
        Err(status) => return Err(status),
    };
    match read_order(alloc, files, words.order) {
        Ok(order) => Ok(MultiInput {
            queries,
            logs,
            alones,
            order,
        }),
        Err(status) => Err(status),
    }
}
