//! A trace, read from its bytes.

ghost use Rattle.std.specs.Prelude.{◌≡◌, IfOk, IsErrOf, option_map};
ghost use Rattle.tk_trace.specs.Behind.{behind_logs_at, histories_at, last_trails_at};
ghost use Rattle.tk_trace.specs.Reading.{Gives, behind_mark, run_at, trace_at};
ghost use Rattle.tk_trace.specs.Recorded.{Recorded, recorded};
ghost use Rattle.tk_trace.specs.Spelling.{IsTrace};
ghost use Rattle.tk_trace.specs.declared.fault.ParseFault.TheVariants as f;
ghost use Rattle.tk_verify.specs.Recorded.{trails_in};

mod fields;
mod frames;
mod head;
mod journal;
mod logs;
mod trails;

use crate::fault::ParseFault;
use crate::recording::Recording;
use head::{names, setup};
use journal::journal;
use logs::logs;
use std::alloc::Global;
use tk_base::Settings;
use tk_input::{Catalog, Logs};
use tk_journal::Noted;
use tk_trail::Entry;
use trails::trails;

const MARK: &[u8] = b"TOPKTRC1";

fn after_mark(bytes: &[u8]) -> Option<&[u8]>
    ensures { option_map (λ x. x.now) result ≡ behind_mark bytes.now }
{
    bytes.strip_prefix(MARK)
}

/// The trails of the monitors of these logs, behind which nothing may follow.
fn last_trails(alloc: Global, logs: &Logs, bytes: &[u8]) -> Result<Vec<Vec<Entry>>, ParseFault>
    ensures { Gives (λ x. trails_in x.items) result (last_trails_at logs.now.logs bytes.now) }
{
    let (trails, rest) = trails(alloc, logs, bytes)?;
    if rest.is_empty() {
        return Ok(trails);
    }
    drop(trails);
    Err(ParseFault::NotATrace)
}

/// The journal and the trails, and nothing behind them.
fn histories(
    alloc: Global,
    monitors: u32,
    logs: &Logs,
    bytes: &[u8],
) -> Result<(Vec<Noted>, Vec<Vec<Entry>>), ParseFault>
    ensures { Gives (λ x. (x.0.items, trails_in x.1.items)) result (histories_at monitors logs.now.logs bytes.now) }
{
    let (journal, rest) = journal(alloc, monitors, bytes)?;
    match last_trails(alloc, logs, rest) {
        Ok(trails) => Ok((journal, trails)),
        Err(fault) => {
            drop(journal);
            Err(fault)
        }
    }
}

/// What was recorded behind its logs. Where it was not, what stands in front of it is dropped by name.
fn behind_logs(
    alloc: Global,
    settings: Settings,
    names: Catalog,
    logs: Logs,
    bytes: &[u8],
) -> Result<Recording, ParseFault>
    ensures { Gives recorded result (behind_logs_at settings names logs bytes.now) }
{
    match histories(alloc, settings.monitors(), &logs, bytes) {
        Ok((journal, trails)) => Ok(Recording {
            names,
            settings,
            logs,
            journal,
            trails,
        }),
        Err(fault) => {
            drop(names);
            drop(logs);
            Err(fault)
        }
    }
}

/// What was recorded over these settings.
#[tactic(auto, unfolding(crate::specs::Reading::run_at))]
fn run(alloc: Global, settings: Settings, bytes: &[u8]) -> Result<Recording, ParseFault>
    ensures { Gives recorded result (run_at settings bytes.now) }
{
    let (names, rest) = names(alloc, settings.objects(), bytes)?;
    match logs(alloc, settings.objects(), settings.monitors(), rest) {
        Ok((logs, rest)) => behind_logs(alloc, settings, names, logs, rest),
        Err(fault) => {
            drop(names);
            Err(fault)
        }
    }
}

#[tactic(auto, unfolding(crate::specs::Reading::trace_at))]
fn read(alloc: Global, bytes: &[u8]) -> Result<Recording, ParseFault>
    ensures { Gives recorded result (trace_at bytes.now) }
{
    let Some(rest) = after_mark(bytes) else {
        return Err(ParseFault::NotATrace);
    };
    match setup(rest) {
        Ok((settings, rest)) => run(alloc, settings, rest),
        Err(fault) => Err(fault),
    }
}

/// Reads a trace, whoever made it. It takes time and memory in proportion to the bytes, whatever counts they claim.
pub fn parse(alloc: Global, bytes: &[u8]) -> Result<Recording, ParseFault>
    // What is read is spelled by these bytes, all of them.
    ensures ok { IfOk result (λ r. IsTrace bytes.now (recorded r)) }
    // What is spelled by them is read, so they are refused exactly where they are a trace of nothing.
    ensures only { (r : Recorded) → IsTrace bytes.now r → IfOk result (λ x. recorded x ≡ r) }
    ensures refused { (r : Recorded) → IsTrace bytes.now r → IsErrOf result f.NotATrace → ⊥ }
{
    read(alloc, bytes)
}
