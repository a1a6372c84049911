//! The most records of a catalogue and of a log, and one more.

use std::alloc::Global;
use tk_input::{Catalog, CatalogFault, Part, PartFault};

/// So many names of three letters out of 41.
fn names(alloc: Global, many: u32) -> Option<Vec<u8>> {
    let mut bytes = Vec::new(alloc);
    for n in 0..many {
        let (first, second, third) = (n / 1681 % 41, n / 41 % 41, n % 41);
        let name = [
            b'A' + first as u8,
            b'A' + second as u8,
            b'A' + third as u8,
            b'\n',
        ];
        bytes.extend_from_slice(&name).ok()?;
    }
    Some(bytes)
}

/// How many names these bytes are, or why they are no catalogue.
fn length_of(alloc: Global, bytes: &[u8]) -> Result<usize, CatalogFault> {
    match Catalog::read(alloc, bytes) {
        Ok(names) => Ok(names.len()),
        Err(fault) => Err(fault),
    }
}

/// The same of so many names.
fn many_names(alloc: Global, many: u32) -> Option<Result<usize, CatalogFault>> {
    match names(alloc, many) {
        Some(bytes) => Some(length_of(alloc, bytes.as_slice())),
        None => None,
    }
}

#[test]
fn a_catalogue_has_at_most_65536_names(rt: HostRuntime) {
    let most = many_names(rt.alloc(), 65_536);
    let over = many_names(rt.alloc(), 65_537);
    assert!(rt; most == Some(Ok(65_536)) && over == Some(Err(CatalogFault::TooMany)));
}

/// So many changes of the only object, with these bytes behind them.
fn changes(alloc: Global, many: usize, more: &[u8]) -> Option<Vec<u8>> {
    let mut bytes = b"a,-1\n".repeat(alloc, many).ok()?;
    bytes.extend_from_slice(more).ok()?;
    Some(bytes)
}

/// How many changes of the named objects these bytes are, or why they are no log.
fn changes_in(alloc: Global, bytes: &[u8], names: &Catalog) -> Result<usize, PartFault> {
    match Part::read(alloc, bytes, names) {
        Ok(part) => Ok(part.len()),
        Err(fault) => Err(fault),
    }
}

/// The same of one object.
fn changes_of_one(alloc: Global, bytes: &[u8]) -> Option<Result<usize, PartFault>> {
    match Catalog::read(alloc, b"a\n") {
        Ok(names) => Some(changes_in(alloc, bytes, &names)),
        Err(_) => None,
    }
}

/// The same of so many changes, with these bytes behind them.
fn many_changes(alloc: Global, many: usize, more: &[u8]) -> Option<Result<usize, PartFault>> {
    match changes(alloc, many, more) {
        Some(bytes) => changes_of_one(alloc, bytes.as_slice()),
        None => None,
    }
}

#[test]
fn a_log_has_at_most_1000000_changes(rt: HostRuntime) {
    let full = many_changes(rt.alloc(), 1_000_000, b"");
    let over = many_changes(rt.alloc(), 1_000_000, b"b\n");
    assert!(rt; full == Some(Ok(1_000_000)) && over == Some(Err(PartFault::TooMany)));
}
