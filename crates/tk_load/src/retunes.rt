//! The order of a run, refused at the first retune that is past the limits.

ghost use Rattle.std.specs.Prelude.{◌≡◌, Ok};
ghost use Rattle.tk_load.specs.Input.{order_from, order_in, order_of_bytes, retune_kind, retunes_tested};
ghost use Rattle.tk_load.specs.Reads.{AreKept, Counts, Meets, Reads, ReadsOrder, name_in, reads_by};

use crate::reading::{bad_file, order_of, read};
use crate::settings::kind_of;
use crate::status::{InputKind, Status};
use std::alloc::Global;
use tk_base::Settings;
use tk_input::{Event, Files, Order};

/// What is wrong with the k and epsilon that an event asks for, under these settings.
pub fn retune_fault(settings: &Settings, event: &Event) -> Option<InputKind>
    ensures { result ≡ retune_kind settings.now event.now }
{
    let Event::Retune(retuning) = event else {
        return None;
    };
    let objects = u64::from(settings.objects());
    let monitors = u64::from(settings.monitors());
    match Settings::new(retuning.k(), retuning.epsilon(), 1, objects, monitors) {
        Ok(_) => None,
        Err(fault) => Some(kind_of(fault)),
    }
}

/// Whether each retune of an order is within the limits.
fn check_retunes(
    alloc: Global,
    settings: &Settings,
    order: &Order,
    file: &str,
) -> Result<(), Status>
    ensures { Meets (λ done. tt) (retunes_tested settings.now file.now order.now) result }
{
    for i in 0..order.len() {
        let line = order.line(i);
        if let Some(kind) = retune_fault(settings, order.at(i)) {
            return Err(bad_file(alloc, file, line, kind));
        }
    }
    Ok(())
}

/// The order of a file, parsed and tested.
fn tested_order(
    alloc: Global,
    settings: &Settings,
    bytes: &[u8],
    file: &str,
) -> Result<Order, Status>
    ensures { Meets (λ order. order) (order_of_bytes settings.now file.now bytes.now) result }
{
    let order = match order_of(alloc, bytes, file) {
        Ok(order) => order,
        Err(status) => return Err(status),
    };
    match check_retunes(alloc, settings, &order, file) {
        Ok(()) => Ok(order),
        Err(status) => Err(status),
    }
}

fn order_from_file<F: Files>(
    alloc: Global,
    settings: &Settings,
    files: &mut F,
    file: &str,
) -> Result<Order, Status>
    ensures read { Reads (reads_by F.Files files.old files.new) file.now (λ order. order) (order_from settings.now) result }
    ensures kept { AreKept F.Files files.old files.new }
    ensures counts { Counts (reads_by F.Files files.old files.new) result }
{
    match read(alloc, files, file) {
        Ok(bytes) => tested_order(alloc, settings, bytes.as_slice(), file),
        Err(status) => Err(status),
    }
}

/// The order, where there is a file of one.
pub fn read_order<F: Files>(
    alloc: Global,
    settings: &Settings,
    files: &mut F,
    file: Option<&str>,
) -> Result<Option<Order>, Status>
    ensures read { ReadsOrder (reads_by F.Files files.old files.new) (name_in file.entry) (order_in settings.now) result }
    ensures kept { AreKept F.Files files.old files.new }
    ensures counts { Counts (reads_by F.Files files.old files.new) result }
{
    let Some(file) = file else {
        return Ok(None);
    };
    match order_from_file(alloc, settings, files, file) {
        Ok(order) => Ok(Some(order)),
        Err(status) => Err(status),
    }
}
