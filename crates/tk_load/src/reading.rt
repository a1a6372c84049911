//! What each file of an input gives once it is read and parsed, or the status that refuses it.

ghost use Rattle.std.specs.Prelude.{◌≡◌, ◌≤◌, IfOk, All, None, Ok, Some, length};
ghost use Rattle.tk_input.specs.Catalog.{catalog_from, catalog_of};
ghost use Rattle.tk_input.specs.Log.{log_of};
ghost use Rattle.tk_input.specs.Logs.{IsObject};
ghost use Rattle.tk_input.specs.Order.{order_of as order_of_bytes};
ghost use Rattle.tk_load.specs.Faults.{bad_whole as whole_fault, catalog_fault, log_fault, order_fault, telling};
ghost use Rattle.tk_load.specs.Faults.Fault.{Bad};
ghost use Rattle.tk_load.specs.Input.{bytes_in, log_from};
ghost use Rattle.tk_load.specs.Reads.{AreKept, Counts, Meets, Reads, Says, reads_by};
ghost use Rattle.tk_load.specs.Whole.{IsWidth};
ghost use Rattle.tk_window.specs.Expanded.{expansion_of};
ghost use Rattle.tk_window.specs.Ticks.{AreOver, ticked_of};

use crate::status::{InputKind, Status};
use std::alloc::Global;
use tk_input::{
    Catalog, CatalogFault, FileFault, Files, Order, OrderFault, Part, PartFault,
    a_catalogue_is_of_its_names,
};
use tk_window::{ExpandFault, Expanded, Ticked, expand};

/// A refused file. Where even its name finds no memory, that is the answer.
pub fn bad_file(alloc: Global, file: &str, line: u32, kind: InputKind) -> Status
    ensures { Says result (Bad file.now line kind) }
{
    match Vec::from_slice(alloc, file.as_bytes()) {
        Ok(file) => Status::BadInput { file, line, kind },
        Err(_) => Status::NoMemory,
    }
}

/// A fault of the settings or of the logs together, which is that of no file.
pub fn bad_whole(alloc: Global, kind: InputKind) -> Status
    ensures { Says result (whole_fault kind) }
{
    Status::BadInput {
        file: Vec::new(alloc),
        line: 0,
        kind,
    }
}

/// The whole content of a file.
pub fn read<F: Files>(alloc: Global, files: &mut F, file: &str) -> Result<Vec<u8>, Status>
    ensures read { Reads (reads_by F.Files files.old files.new) file.now (λ v. v.items) bytes_in result }
    ensures kept { AreKept F.Files files.old files.new }
    ensures counts { Counts (reads_by F.Files files.old files.new) result }
{
    match files.read_all(alloc, file) {
        Ok(bytes) => Ok(bytes),
        Err(FileFault::NoMemory) => Err(Status::NoMemory),
        Err(FileFault::TooLong) => Err(bad_file(alloc, file, 0, InputKind::TooLong)),
        Err(FileFault::Failed) => match Vec::from_slice(alloc, file.as_bytes()) {
            Ok(file) => Err(Status::ReadFault { file }),
            Err(_) => Err(Status::NoMemory),
        },
    }
}

/// The catalogue of a file.
pub fn names_of(alloc: Global, bytes: &[u8], file: &str) -> Result<Catalog, Status>
    ensures named { IfOk result (λ names. catalog_from names ≡ Ok names) }
    ensures meets { Meets (λ names. names) (telling (catalog_fault file.now) (catalog_of bytes.now)) result }
{
    a_catalogue_is_of_its_names();
    match Catalog::read(alloc, bytes) {
        Ok(names) => Ok(names),
        Err(CatalogFault::NoMemory) => Err(Status::NoMemory),
        Err(CatalogFault::Empty) => Err(bad_file(alloc, file, 0, InputKind::Empty)),
        Err(CatalogFault::TooMany) => Err(bad_file(alloc, file, 0, InputKind::TooMany)),
        Err(CatalogFault::BadRow(line)) => Err(bad_file(alloc, file, line, InputKind::BadRow)),
        Err(CatalogFault::BadName(line)) => Err(bad_file(alloc, file, line, InputKind::BadName)),
        Err(CatalogFault::Repeated(line)) => Err(bad_file(alloc, file, line, InputKind::Repeated)),
    }
}

/// A log that is refused.
fn bad_log(alloc: Global, file: &str, fault: PartFault) -> Status
    ensures { Says result (log_fault file.now fault) }
{
    match fault {
        PartFault::NoMemory => Status::NoMemory,
        PartFault::TooMany => bad_file(alloc, file, 0, InputKind::TooMany),
        PartFault::BadRow(line) => bad_file(alloc, file, line, InputKind::BadRow),
        PartFault::UnknownName(line) => bad_file(alloc, file, line, InputKind::UnknownName),
        PartFault::BadNumber(line) => bad_file(alloc, file, line, InputKind::BadNumber),
    }
}

/// The changes of a log.
fn part_of(alloc: Global, bytes: &[u8], names: &Catalog, file: &str) -> Result<Part, Status>
    ensures objects { IfOk result (λ p. All (λ c. IsObject (length names.now) c.0) p) }
    ensures most { IfOk result (λ p. length p ≤ 1000000) }
    ensures meets { Meets (λ p. p) (telling (log_fault file.now) (log_of names.now bytes.now)) result }
{
    match Part::read(alloc, bytes, names) {
        Ok(part) => Ok(part),
        Err(fault) => Err(bad_log(alloc, file, fault)),
    }
}

/// A log as it is.
fn whole_log(alloc: Global, bytes: &[u8], names: &Catalog, file: &str) -> Result<Expanded, Status>
    ensures objects { IfOk result (λ e. AreOver (length names.now) e.part) }
    ensures most { IfOk result (λ e. length e.part ≤ 1000000) }
    ensures meets { Meets expansion_of (log_from None names.now file.now bytes.now) result }
{
    let part = match part_of(alloc, bytes, names, file) {
        Ok(part) => part,
        Err(status) => return Err(status),
    };
    let part = part.share(alloc)?;
    let ends = Vec::new(alloc);
    Ok(Expanded { part, ends })
}

/// The ticks of a log.
fn ticks_of(alloc: Global, bytes: &[u8], names: &Catalog, file: &str) -> Result<Ticked, Status>
    ensures objects { IfOk result (All (AreOver (length names.now))) }
    ensures meets { Meets (λ ticks. ticks) (telling (log_fault file.now) (ticked_of names.now bytes.now)) result }
{
    match Ticked::read(alloc, bytes, names) {
        Ok(ticks) => Ok(ticks),
        Err(fault) => Err(bad_log(alloc, file, fault)),
    }
}

/// A log that a window of this width goes over.
fn window_log(
    alloc: Global,
    bytes: &[u8],
    names: &Catalog,
    width: u32,
    file: &str,
) -> Result<Expanded, Status>
    requires some { 1 ≤ width }
    requires width { width ≤ 1000000 }
    ensures objects { IfOk result (λ e. AreOver (length names.now) e.part) }
    ensures most { IfOk result (λ e. length e.part ≤ 1000000) }
    ensures meets { Meets expansion_of (log_from (Some width) names.now file.now bytes.now) result }
{
    let ticks = match ticks_of(alloc, bytes, names, file) {
        Ok(ticks) => ticks,
        Err(status) => return Err(status),
    };
    match expand(alloc, &ticks, width) {
        Ok(log) => Ok(log),
        Err(ExpandFault::TooLong { .. }) => Err(bad_file(alloc, file, 0, InputKind::TooMany)),
        Err(ExpandFault::NoMemory) => Err(Status::NoMemory),
    }
}

/// The log of a file, which a window of this width goes over, if there is one.
pub fn log_by(
    alloc: Global,
    bytes: &[u8],
    names: &Catalog,
    width: Option<u32>,
    file: &str,
) -> Result<Expanded, Status>
    requires { IsWidth width }
    ensures objects { IfOk result (λ e. AreOver (length names.now) e.part) }
    ensures most { IfOk result (λ e. length e.part ≤ 1000000) }
    ensures meets { Meets expansion_of (log_from width names.now file.now bytes.now) result }
{
    match width {
        None => whole_log(alloc, bytes, names, file),
        Some(width) => window_log(alloc, bytes, names, width, file),
    }
}

/// The events of an order file.
pub fn order_of(alloc: Global, bytes: &[u8], file: &str) -> Result<Order, Status>
    ensures { Meets (λ order. order) (telling (order_fault file.now) (order_of_bytes bytes.now)) result }
{
    match Order::read(alloc, bytes) {
        Ok(order) => Ok(order),
        Err(OrderFault::NoMemory) => Err(Status::NoMemory),
        Err(OrderFault::BadOrder(line)) => Err(bad_file(alloc, file, line, InputKind::BadOrder)),
    }
}
