//! What stands in front of an order: the objects, the settings and the logs.

ghost use Rattle.std.specs.Prelude.{◌≡◌, IfOk, Ok, length};
ghost use Rattle.tk_input.specs.Catalog.{catalog_from};
ghost use Rattle.tk_load.specs.Input.{greatest_monitor, limits_asked, names_in};
ghost use Rattle.tk_load.specs.Reads.{AreKept, Counts, LoadsBasis, Meets, Reads, reads_by};
ghost use Rattle.tk_load.specs.Whole.{AreAgreed, IsWidth};
ghost use Rattle.tk_words.specs.Asked.{AreOfMonitors, asked_logs, asked_sources};

use crate::changes::{Together, join, parts_of};
use crate::reading::{names_of, read};
use crate::settings::{Limits, settings_by, width_by};
use crate::status::Status;
use std::alloc::Global;
use std::marker::Sync;
use std::thread::Threads;
use tk_base::{Mon, Settings};
use tk_input::{Catalog, Files, Logs};
use tk_window::TickEnds;
use tk_words::Sources;

/// What the words of a run and its files give, but its order.
#[derive(Drop)]
pub struct Basis {
    pub names: Catalog,
    pub settings: Settings,
    pub logs: Logs,
    /// Where the ticks of the logs end, of a window over them.
    pub ends: Option<TickEnds>,
}

/// The greatest monitor number among the words, also where one below it is missing.
fn monitors_of(logs: &[(Mon, &str)]) -> u32
    ensures { result ≡ greatest_monitor (asked_logs logs.now) }
{
    logs.iter().fold(0, |most, log| most.max(log.0.0))
}

/// The catalogue of a file.
pub fn read_names<F: Files>(alloc: Global, files: &mut F, file: &str) -> Result<Catalog, Status>
    ensures named { IfOk result (λ names. catalog_from names ≡ Ok names) }
    ensures read { Reads (reads_by F.Files files.old files.new) file.now (λ names. names) names_in result }
    ensures kept { AreKept F.Files files.old files.new }
    ensures counts { Counts (reads_by F.Files files.old files.new) result }
{
    match read(alloc, files, file) {
        Ok(bytes) => names_of(alloc, bytes.as_slice(), file),
        Err(status) => Err(status),
    }
}

fn limits_of(alloc: Global, words: &Sources<'_>, names: &Catalog) -> Result<Limits, Status>
    ensures objects { IfOk result (λ l. l.settings.objects ≡ length names.now) }
    ensures monitors { IfOk result (λ l. l.settings.monitors ≡ greatest_monitor (asked_logs words.now.logs.items)) }
    ensures width { IfOk result (λ l. IsWidth l.width) }
    ensures meets { Meets (λ l. l) (limits_asked (asked_sources words.now) names.now) result }
{
    let monitors = u64::from(monitors_of(words.logs.as_slice()));
    let objects = names.len() as u64;
    let settings = match settings_by(
        alloc,
        words.k,
        words.epsilon,
        words.own_weight,
        objects,
        monitors,
    ) {
        Ok(settings) => settings,
        Err(status) => return Err(status),
    };
    match width_by(alloc, words.width) {
        Ok(width) => Ok(Limits { settings, width }),
        Err(status) => Err(status),
    }
}

/// Reads what the words name but the order, in the order of work: the objects, the settings and the width, the logs.
pub fn load_basis<R: Threads + Sync, F: Files>(
    rt: &R,
    alloc: Global,
    words: &Sources<'_>,
    files: &mut F,
) -> Result<Basis, Status>
    requires { AreOfMonitors words.now.logs.items }
    ensures named { IfOk result (λ basis. catalog_from basis.names ≡ Ok basis.names) }
    ensures agreed { IfOk result (λ basis. AreAgreed basis.names basis.settings basis.logs) }
    ensures read { LoadsBasis (reads_by F.Files files.old files.new) (asked_sources words.now) result }
    ensures kept { AreKept F.Files files.old files.new }
    ensures counts { Counts (reads_by F.Files files.old files.new) result }
{
    let names = match read_names(alloc, files, words.objects) {
        Ok(names) => names,
        Err(status) => return Err(status),
    };
    let Limits { settings, width } = match limits_of(alloc, words, &names) {
        Ok(limits) => limits,
        Err(status) => return Err(status),
    };
    let parts = match parts_of(rt, alloc, words.logs.as_slice(), &names, width, files) {
        Ok(parts) => parts,
        Err(status) => return Err(status),
    };
    let Together { logs, ends } = match join(alloc, parts.as_slice(), width, names.len() as u32) {
        Ok(together) => together,
        Err(status) => return Err(status),
    };
    Ok(Basis {
        names,
        settings,
        logs,
        ends,
    })
}
