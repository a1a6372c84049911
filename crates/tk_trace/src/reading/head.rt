//! What stands before the logs: what the run was set up with, and the names of the objects.

ghost use Rattle.tk_input.specs.Catalog.{catalog_from, names_of};
ghost use Rattle.tk_trace.specs.Reading.{Gives, if_ok, name_at, names_at, setup_at, times_at};

use super::fields::{byte, u32_at, u128_at};
use crate::fault::ParseFault;
use std::alloc::Global;
use tk_base::Settings;
use tk_input::{Catalog, CatalogFault};

/// The settings, and what follows them.
#[tactic(auto, unfolding(crate::specs::Reading::setup_at))]
pub fn setup(bytes: &[u8]) -> Result<(Settings, &[u8]), ParseFault>
    ensures { Gives (λ x. (x.0, x.1.now)) result (setup_at bytes.now) }
{
    let (k, rest) = u32_at(bytes)?;
    let (epsilon, rest) = u128_at(rest)?;
    let (own_weight, rest) = u32_at(rest)?;
    let (objects, rest) = u32_at(rest)?;
    let (monitors, rest) = u32_at(rest)?;
    match Settings::new(
        k as u64,
        epsilon,
        own_weight as u64,
        objects as u64,
        monitors as u64,
    ) {
        Ok(settings) => Ok((settings, rest)),
        Err(_) => Err(ParseFault::NotATrace),
    }
}

#[tactic(auto, unfolding(crate::specs::Reading::name_at))]
fn name(alloc: Global, bytes: &[u8]) -> Result<(Vec<u8>, &[u8]), ParseFault>
    ensures { Gives (λ x. (x.0.items, x.1.now)) result (name_at bytes.now) }
{
    let (size, rest) = byte(bytes)?;
    let size = size as usize;
    if rest.len() < size {
        return Err(ParseFault::NotATrace);
    }
    let (name, rest) = rest.split_at(size);
    Ok((Vec::from_slice(alloc, name)?, rest))
}

fn name_list(alloc: Global, count: u32, bytes: &[u8]) -> Result<(Vec<Vec<u8>>, &[u8]), ParseFault>
    ensures { Gives (λ x. (names_of x.0.items, x.1.now)) result (times_at name_at count bytes.now) }
{
    let mut list = Vec::new(alloc);
    let mut rest = bytes;
    for _ in 0..count {
        let (item, after) = name(alloc, rest)?;
        list.push(item)?;
        rest = after;
    }
    Ok((list, rest))
}

/// These names as a catalogue, if they are one.
fn catalogue(alloc: Global, list: &[Vec<u8>]) -> Result<Catalog, ParseFault>
    ensures { Gives (λ names. names) result (if_ok (catalog_from (names_of list.now))) }
{
    match Catalog::from_names(alloc, list) {
        Ok(names) => Ok(names),
        Err(CatalogFault::Empty) => Err(ParseFault::NotATrace),
        Err(CatalogFault::TooMany) => Err(ParseFault::NotATrace),
        Err(CatalogFault::BadRow(_)) => Err(ParseFault::NotATrace),
        Err(CatalogFault::BadName(_)) => Err(ParseFault::NotATrace),
        Err(CatalogFault::Repeated(_)) => Err(ParseFault::NotATrace),
        Err(CatalogFault::NoMemory) => Err(ParseFault::NoMemory),
    }
}

/// The names, and what follows them.
#[tactic(auto, unfolding(crate::specs::Reading::names_at))]
pub fn names(alloc: Global, objects: u32, bytes: &[u8]) -> Result<(Catalog, &[u8]), ParseFault>
    ensures { Gives (λ x. (x.0, x.1.now)) result (names_at objects bytes.now) }
{
    let (list, rest) = name_list(alloc, objects, bytes)?;
    let names = catalogue(alloc, list.as_slice());
    drop(list);
    Ok((names?, rest))
}
