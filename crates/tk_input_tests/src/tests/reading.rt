//! What catalogues and logs mean, and where they are refused.

use std::alloc::Global;
use tk_base::Obj;
use tk_input::{Catalog, CatalogFault, Change, Part, PartFault};

/// How many names there are, and which objects three of them are.
fn found_in(names: &Catalog) -> (usize, [Option<Obj>; 3]) {
    let found = [names.find(b"b,c"), names.find(b"d\"e"), names.find(b"d")];
    (names.len(), found)
}

/// The same of the names that these bytes are.
fn found(alloc: Global, bytes: &[u8]) -> Option<(usize, [Option<Obj>; 3])> {
    match Catalog::read(alloc, bytes) {
        Ok(names) => Some(found_in(&names)),
        Err(_) => None,
    }
}

#[test]
fn a_catalogue_names_its_objects(rt: HostRuntime) {
    let bytes = b"\xef\xbb\xbfa\r\n\n\"b,c\"\rd\"e".as_slice();
    let found = found(rt.alloc(), bytes);
    assert!(rt; found == Some((3, [Some(Obj(2)), Some(Obj(3)), None])));
}

/// Whether these bytes make no catalogue for this reason, or make one.
fn is_fault(alloc: Global, bytes: &[u8], fault: Option<CatalogFault>) -> bool {
    Catalog::read(alloc, bytes).err() == fault
}

/// The same of each of some bytes.
fn are_faults(alloc: Global, cases: &[(&[u8], Option<CatalogFault>)]) -> bool {
    for (bytes, fault) in cases {
        if !is_fault(alloc, bytes, *fault) {
            return false;
        }
    }
    true
}

#[test]
fn a_catalogue_is_refused_at_its_first_fault(rt: HostRuntime) {
    const LONG: [u8; 256] = [b'a'; 256];
    const CASES: [(&'static [u8], Option<CatalogFault>); 8] = [
        (b"", Some(CatalogFault::Empty)),
        (b"\n\r\n", Some(CatalogFault::Empty)),
        (b"a\nb,c\na\n", Some(CatalogFault::BadRow(2))),
        (b"a\n\n\nb c\na\n", Some(CatalogFault::BadName(2))),
        (b"\"\"\n", Some(CatalogFault::BadName(1))),
        (b"a\n\x7f\n", Some(CatalogFault::BadName(2))),
        (b"a\nb\nc\xc3\xa4\n", Some(CatalogFault::BadName(3))),
        (b"a\nb\na\nb\n", Some(CatalogFault::Repeated(3))),
    ];
    let is_full = is_fault(rt.alloc(), &LONG[..255], None);
    let is_over = is_fault(rt.alloc(), &LONG, Some(CatalogFault::BadName(1)));
    assert!(rt; is_full && is_over && are_faults(rt.alloc(), &CASES));
}

/// Whether a log has these changes, each an object and a number.
fn has_changes(part: &Part, wanted: &[(u32, i128)]) -> bool {
    for (i, (obj, by)) in wanted.iter().enumerate() {
        let change = Change {
            obj: Obj(*obj),
            by: *by,
        };
        if i >= part.len() || part.at(i) != change {
            return false;
        }
    }
    part.len() == wanted.len()
}

/// What these bytes are as a log of the objects a and b.
fn log_of(alloc: Global, bytes: &[u8]) -> Option<Result<Part, PartFault>> {
    let names = Catalog::read(alloc, b"a\nb\n").ok()?;
    Some(Part::read(alloc, bytes, &names))
}

/// Whether these bytes are a log of these changes.
fn is_log(alloc: Global, bytes: &[u8], wanted: &[(u32, i128)]) -> bool {
    match log_of(alloc, bytes) {
        Some(Ok(part)) => has_changes(&part, wanted),
        _ => false,
    }
}

#[test]
fn a_log_is_its_changes(rt: HostRuntime) {
    let alloc = rt.alloc();
    let changes = [(1, 1), (2, -2), (1, 3), (2, 0)];
    assert!(rt; is_log(alloc, b"a,1\nb,-0002\r\n\"a\",+3\nb,0", &changes));
    assert!(rt; is_log(alloc, b"", &[]));
    let least = [(1, -99_999_999_999_999_999_999_999_999_999_999_999_999)];
    assert!(rt; is_log(alloc, b"a,-99999999999999999999999999999999999999", &least));
}

#[test]
fn a_log_keeps_its_changes_past_four_bytes(rt: HostRuntime) {
    let text = b"a,2147483647\na,-2147483648\na,2147483648\na,-1\n".as_slice();
    let changes = [
        (1, 2_147_483_647),
        (1, -2_147_483_648),
        (1, 2_147_483_648),
        (1, -1),
    ];
    assert!(rt; is_log(rt.alloc(), text, &changes));
}

/// Why these bytes are no log.
fn log_fault_of(alloc: Global, bytes: &[u8]) -> Option<PartFault> {
    log_of(alloc, bytes)?.err()
}

/// Whether each of these is no log for its reason.
fn are_refused(alloc: Global, cases: &[(&[u8], PartFault)]) -> bool {
    for (bytes, fault) in cases {
        if log_fault_of(alloc, bytes) != Some(*fault) {
            return false;
        }
    }
    true
}

#[test]
fn a_log_is_refused_at_its_first_fault(rt: HostRuntime) {
    const GREAT: &'static [u8] = b"a,100000000000000000000000000000000000000\n";
    const CASES: [(&'static [u8], PartFault); 10] = [
        (b"a,1\nb,2\nc,3\n", PartFault::UnknownName(3)),
        (b"c,x\n", PartFault::UnknownName(1)),
        (b"a,12x\nc,1\n", PartFault::BadNumber(1)),
        (b"a,1\na\n", PartFault::BadRow(2)),
        (b"c,1,2\n", PartFault::BadRow(1)),
        (b"a,1\n\na,\n", PartFault::BadNumber(2)),
        (b"a,-\n", PartFault::BadNumber(1)),
        (b"a,+-1\n", PartFault::BadNumber(1)),
        (b"a, 1\n", PartFault::BadNumber(1)),
        (GREAT, PartFault::BadNumber(1)),
    ];
    assert!(rt; are_refused(rt.alloc(), &CASES));
}
