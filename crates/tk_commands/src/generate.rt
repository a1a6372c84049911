//! What the words of `gen` give: a catalogue, settings, and logs from a seed.

ghost use Rattle.std.specs.Prelude.{◌≡◌, ◌<◌, ◌≤◌, ◌++◌, IfErr, IfOk, OnOk, codes, decimal, length};
ghost use Rattle.tk_commands.specs.Generated.{generated_of, logs_asked, names_made, names_text as text_of_names};
ghost use Rattle.tk_load.specs.Reads.{Meets};
ghost use Rattle.tk_load.specs.Whole.{AreAgreed};
ghost use Rattle.tk_load.specs.declared.status.Status.TheVariants.{NoMemory as OutOfMemory};
ghost use Rattle.tk_words.specs.Asked.{asked_generate};

use crate::making::{parts_of, updates_of};
use std::alloc::{AllocError, Global};
use tk_base::Settings;
use tk_input::{Catalog, Logs};
use tk_load::{Input, InputKind, Status, bad_whole, logs_of, push_number, settings_by};
use tk_words::Generate;

const MAX_UPDATES: u64 = 1_000_000;

const OWN_WEIGHT: u64 = 1;

/// Writes the name of an object as a line.
fn push_name(text: &mut Vec<u8>, object: u32) -> Result<(), AllocError>
    ensures { OnOk result (text.new.items ≡ text.old.items ++ (codes "o" ++ (decimal object ++ codes "\n"))) }
{
    text.extend_from_slice(b"o")?;
    push_number(text, object)?;
    text.extend_from_slice(b"\n")?;
    Ok(())
}

/// The names o1, o2, .., one a line.
fn names_text(alloc: Global, objects: u32) -> Result<Vec<u8>, AllocError>
    ensures { IfOk result (λ text. text.items ≡ text_of_names objects) }
{
    let mut text = Vec::new(alloc);
    for j in 0..objects {
        push_name(&mut text, j + 1)?;
    }
    Ok(text)
}

/// The names o1, o2, .. as a catalogue.
fn catalogue(alloc: Global, objects: u32) -> Result<Catalog, Status>
    requires some { 0 < objects }
    requires few { objects ≤ 65536 }
    ensures ok { IfOk result (λ names. names ≡ names_made objects) }
    ensures err { IfErr result (λ status. status ≡ OutOfMemory) }
{
    let text = names_text(alloc, objects)?;
    match Catalog::read(alloc, text.as_slice()) {
        Ok(names) => Ok(names),
        // The text is a catalogue, so that memory alone can be wanted.
        Err(_) => Err(Status::NoMemory),
    }
}

/// The logs of the words' updates.
fn made_logs(alloc: Global, words: &Generate, settings: &Settings) -> Result<Logs, Status>
    requires objects { settings.now.objects ≡ words.now.objects }
    requires monitors { settings.now.monitors ≡ words.now.monitors }
    requires few { words.now.updates ≤ 1000000 }
    ensures objects { IfOk result (λ s. s.objects ≡ settings.now.objects) }
    ensures monitors { IfOk result (λ s. length s.logs ≡ settings.now.monitors) }
    ensures meets { Meets (λ s. s) (logs_asked (asked_generate words.now)) result }
{
    let count = words.updates as u32;
    let monitors = settings.monitors();
    let objects = settings.objects();
    let updates = updates_of(alloc, words.seed, count, monitors, objects)?;
    let parts = parts_of(alloc, updates.as_slice(), monitors, objects)?;
    logs_of(alloc, parts, objects)
}

/// The names, settings and logs that the words give. The settings are tested first, with the numbers of the words.
pub fn make(alloc: Global, words: &Generate) -> Result<Input, Status>
    ensures agreed { IfOk result (λ input. AreAgreed input.names input.settings input.logs) }
    ensures meets { Meets (λ input. input) (generated_of (asked_generate words.now)) result }
{
    let settings = match settings_by(
        alloc,
        words.k,
        words.epsilon,
        OWN_WEIGHT,
        words.objects,
        words.monitors,
    ) {
        Ok(settings) => settings,
        Err(status) => return Err(status),
    };
    if words.updates > MAX_UPDATES {
        return Err(bad_whole(alloc, InputKind::TooMany));
    }
    let names = catalogue(alloc, settings.objects())?;
    match made_logs(alloc, words, &settings) {
        Ok(logs) => Ok(Input {
            names,
            settings,
            logs,
            ends: None,
            order: None,
        }),
        Err(status) => Err(status),
    }
}
