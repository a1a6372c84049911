//! What each query runs over alone, or why some queries are refused.

ghost use Rattle.std.specs.Prelude.{◌≡◌, ◌≤◌, IfOk, IfErr, All, Ok, length};
ghost use Rattle.tk_input.specs.Logs.{IsCut};
ghost use Rattle.tk_multi.specs.Alone.{AreOfOneSize, Refuses, all_settings, alone_with as alone_of, alones_of, settings_at, settings_for};

use crate::alone::Alone;
use crate::fault::MultiFault;
use crate::queries::Queries;
use crate::query::Query;
use crate::watch::Watch;
use crate::watched::logs_for;
use std::alloc::Global;
use tk_base::{NoMemory, Settings};
use tk_input::{Catalog, Logs, updates_in};

const MAX_UPDATES: u32 = 4_000_000;

/// The coordinator's share of the slack, of every query.
const OWN_WEIGHT: u64 = 1;

/// The settings of the query of a number.
fn settings_of(
    alloc: Global,
    names: &Catalog,
    monitors: u32,
    query: &Query,
    q: u32,
) -> Result<Settings, MultiFault>
    ensures ok { IfOk result (λ s. settings_at q (settings_for names.now monitors query.now) ≡ Ok s) }
    ensures err { IfErr result (λ e. Refuses e (settings_at q (settings_for names.now monitors query.now))) }
{
    let objects = names.with_prefix(alloc, query.prefix())?.len() as u64;
    let (k, epsilon) = (query.k(), query.epsilon());
    match Settings::new(k, epsilon, OWN_WEIGHT, objects, u64::from(monitors)) {
        Ok(settings) => Ok(settings),
        Err(fault) => Err(MultiFault::Bad { query: q, fault }),
    }
}

/// The settings of each query, or the fault of the first that is refused.
fn each_settings(
    alloc: Global,
    names: &Catalog,
    monitors: u32,
    queries: &[Query],
) -> Result<Vec<Settings>, MultiFault>
    requires { length queries.now ≤ 16 }
    ensures ok { IfOk result (λ list. all_settings names.now monitors queries.now ≡ Ok list.items) }
    ensures err { IfErr result (λ e. Refuses e (all_settings names.now monitors queries.now)) }
{
    let mut list = Vec::with_capacity(alloc, queries.len())?;
    for query in queries {
        let q = list.len() as u32 + 1;
        list.push(settings_of(alloc, names, monitors, query, q)?)?;
    }
    Ok(list)
}

/// What a query of some settings runs over alone.
fn alone_with(
    alloc: Global,
    names: &Catalog,
    logs: &Logs,
    prefix: &[u8],
    settings: Settings,
) -> Result<Alone, NoMemory>
    ensures value { IfOk result (λ alone. alone ≡ alone_of names.now logs.now prefix.now settings) }
    ensures cut { IfOk result (λ alone. IsCut alone.logs.logs alone.from) }
{
    let own = names.with_prefix(alloc, prefix)?;
    let watch = Watch::new(alloc, names, &own)?;
    let logs = logs_for(alloc, logs, &watch, own.len() as u32)?;
    let from = logs.start(alloc)?;
    Ok(Alone {
        names: own,
        watch,
        settings,
        logs,
        from,
    })
}

/// What each query runs over alone, or the first query whose settings are refused, or that the logs of all queries
/// together are too long. Costs a pass over the logs for each query.
pub fn each_alone(
    alloc: Global,
    names: &Catalog,
    logs: &Logs,
    queries: &Queries,
) -> Result<Vec<Alone>, MultiFault>
    ensures ok { IfOk result (λ list. alones_of names.now logs.now queries.now ≡ Ok list.items) }
    ensures err { IfErr result (λ e. Refuses e (alones_of names.now logs.now queries.now)) }
    ensures count { IfOk result (λ list. length list.items ≡ length queries.now) }
    ensures sizes { IfOk result (λ list. All AreOfOneSize list.items) }
{
    let queries = queries.all();
    let settings = each_settings(alloc, names, logs.monitors(), queries)?;
    let mut list = Vec::with_capacity(alloc, queries.len())?;
    let mut updates = 0;
    for i in 0..settings.len() {
        let alone = alone_with(alloc, names, logs, queries[i].prefix(), settings[i])?;
        updates += updates_in(&alone.logs);
        if updates > MAX_UPDATES {
            return Err(MultiFault::TooManyUpdates);
        }
        list.push(alone)?;
    }
    Ok(list)
}
