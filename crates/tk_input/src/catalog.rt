//! The catalogue: the rules for its names, how a file gives them, and how names and objects are found.

ghost use Rattle.std.specs.Prelude.{◌≡◌, ◌<◌, ◌≤◌, ◌-◌, IfOk, IfErr, OnOk, Ok, nat_le, ◌&&◌, [], bytes_eq, length, option_map, slice_get, Some};
ghost use Rattle.std.specs.List.{IsDistinct, list_all};
ghost use Rattle.csv.specs.Records.{fields_of};
ghost use Rattle.tk_input.specs.Catalog.{AreDifferent, IsFault, IsNameFault, IsWithin, is_name as is_name_of, lent_name, name_added, next_name, names_of, names_with, some_names, with_name, object_of, only_field as only_field_of};
ghost use Rattle.tk_input.specs.Logs.{IsObject};
ghost use Rattle.tk_input.specs.Records.{records_in, through};
ghost use Rattle.tk_input.specs.declared.catalog.CatalogFault.TheVariants.{NoMemory as OutOfMemory};

use crate::name_hasher::NameHasher;
use crate::records::Records;
use csv::ByteRecord;
use indexmap::IndexSet;
use std::alloc::{AllocError, AllocFailed, Global};
use std::error::Error;
use std::fmt;
use std::hash::BuildHasherDefault;
use std::marker::Model;
use tk_base::{NoMemory, Obj};

type Names = IndexSet<Vec<u8>, BuildHasherDefault<NameHasher>>;

const MAX_OBJECTS: usize = 65_536;

const MAX_NAME: usize = 255;

/// Why a file is no catalogue. A number is that of the record, from 1.
#[derive(Clone, Copy, Debug, PartialEq, Eq)]
pub enum CatalogFault {
    Empty,
    TooMany,
    BadRow(u32),
    BadName(u32),
    Repeated(u32),
    NoMemory,
}

impl fmt::Display for CatalogFault {
    fn fmt<W: fmt::Write>(&self, f: &mut fmt::Formatter<W>) -> fmt::Result {
        match self {
            CatalogFault::Empty => f.write_str("no object"),
            CatalogFault::TooMany => f.write_str("too many records"),
            CatalogFault::BadRow(n) => write!(f, "record {n}: wrong number of fields"),
            CatalogFault::BadName(n) => write!(f, "record {n}: bad name"),
            CatalogFault::Repeated(n) => write!(f, "record {n}: repeated name"),
            CatalogFault::NoMemory => f.write_str("out of memory"),
        }
    }
}

impl Error for CatalogFault {}

impl From<AllocError> for CatalogFault {
    ghost from_gives = { λ _ e. e ≡ OutOfMemory };

    fn from(_error: AllocError) -> CatalogFault {
        CatalogFault::NoMemory
    }
}

impl<T: Drop> From<AllocFailed<T>> for CatalogFault {
    ghost from_gives = { λ _ e. e ≡ OutOfMemory };

    fn from(_error: AllocFailed<T>) -> CatalogFault {
        CatalogFault::NoMemory
    }
}

impl From<NoMemory> for CatalogFault {
    ghost from_gives = { λ _ e. e ≡ OutOfMemory };

    fn from(_error: NoMemory) -> CatalogFault {
        CatalogFault::NoMemory
    }
}

/// The names of the objects, by their places from 1.
#[derive(Debug, Drop)]
pub struct Catalog {
    names: Names,
}

impl Model for Catalog {
    ghost use Rattle.std.specs.Prelude.{ℕ, List, ◌≤◌, length};
    ghost use Rattle.tk_input.specs.Catalog.{names_of};

    ghost Value = { List (List ℕ) };

    ghost view = { λ c. names_of c.names.keys };

    ghost invariant = { λ c. length c.names.keys ≤ 65536 };
}

fn is_visible(name: &[u8]) -> bool
    ensures { result ≡ list_all (λ b. nat_le 0x21 b && nat_le b 0x7e) name.now }
{
    name.iter().all(|b| 0x21 <= *b && *b <= 0x7e)
}

fn is_name(name: &[u8]) -> bool
    ensures { result ≡ is_name_of name.now }
{
    !name.is_empty() && name.len() <= MAX_NAME && is_visible(name)
}

fn only_field(row: &ByteRecord) -> Option<&[u8]>
    ensures { option_map (λ s. s.now) result ≡ only_field_of (fields_of row.now) }
{
    if row.len() == 1 { row.get(0) } else { None }
}

/// Adds a name behind the others, by the rules of a catalogue's names.
fn add_name(alloc: Global, names: &mut Names, name: &[u8]) -> Result<(), CatalogFault>
    requires { length names.old.keys < 65536 }
    ensures ok { OnOk result (with_name (names_of names.old.keys) (Some name.now) ≡ Ok (names_of names.new.keys)) }
    ensures err { IfErr result (λ e. IsNameFault e (with_name (names_of names.old.keys) (Some name.now))) }
    ensures few { OnOk result (length names.new.keys ≤ 65536) }
{
    let number = names.len() as u32 + 1;
    if !is_name(name) {
        return Err(CatalogFault::BadName(number));
    }
    if names.contains(name) {
        return Err(CatalogFault::Repeated(number));
    }
    names.insert(Vec::from_slice(alloc, name)?)?;
    Ok(())
}

/// Adds the name of a record behind the others.
fn take_name(alloc: Global, names: &mut Names, name: Option<&[u8]>) -> Result<(), CatalogFault>
    ensures ok { OnOk result (next_name (names_of names.old.keys) (lent_name name.entry) ≡ Ok (names_of names.new.keys)) }
    ensures err { IfErr result (λ e. IsNameFault e (next_name (names_of names.old.keys) (lent_name name.entry))) }
    ensures few { OnOk result (length names.new.keys ≤ 65536) }
{
    if names.len() >= MAX_OBJECTS {
        return Err(CatalogFault::TooMany);
    }
    match name {
        Some(name) => add_name(alloc, names, name),
        None => Err(CatalogFault::BadRow(names.len() as u32 + 1)),
    }
}

/// Adds the names of the records that are left behind the others. Here and below what grows is lent: a place that drops it
/// by itself is dear to prove.
fn take_rows(
    alloc: Global,
    rows: &mut Records<'_>,
    row: &mut ByteRecord,
    names: &mut Names,
) -> Result<(), CatalogFault>
    requires { length names.old.keys ≤ 65536 }
    ensures ok { OnOk result (through name_added (names_of names.old.keys) rows.old ≡ Ok (names_of names.new.keys)) }
    ensures err { IfErr result (λ e. IsFault e (through name_added (names_of names.old.keys) rows.old)) }
    ensures few { OnOk result (length names.new.keys ≤ 65536) }
{
    while rows.next(row)? {
        take_name(alloc, names, only_field(row))?;
    }
    Ok(())
}

/// Adds the names of a file behind the others.
fn take_records(alloc: Global, bytes: &[u8], names: &mut Names) -> Result<(), CatalogFault>
    requires { length names.old.keys ≤ 65536 }
    ensures ok { OnOk result (through name_added (names_of names.old.keys) (records_in bytes.now) ≡ Ok (names_of names.new.keys)) }
    ensures err { IfErr result (λ e. IsFault e (through name_added (names_of names.old.keys) (records_in bytes.now))) }
    ensures few { OnOk result (length names.new.keys ≤ 65536) }
{
    let mut rows = Records::new(alloc, bytes);
    let mut row = ByteRecord::new(alloc);
    take_rows(alloc, &mut rows, &mut row, names)
}

/// Adds the names of a list behind the others.
fn take_list(alloc: Global, list: &[Vec<u8>], names: &mut Names) -> Result<(), CatalogFault>
    requires { length names.old.keys ≤ 65536 }
    ensures ok { OnOk result (through (λ before name. next_name before (Some name))
        (names_of names.old.keys) (names_of list.now) ≡ Ok (names_of names.new.keys)) }
    ensures err { IfErr result (λ e. IsFault e (through (λ before name. next_name before (Some name))
        (names_of names.old.keys) (names_of list.now))) }
    ensures few { OnOk result (length names.new.keys ≤ 65536) }
{
    for name in list {
        take_name(alloc, names, Some(name.as_slice()))?;
    }
    Ok(())
}

/// Adds those names of a list that begin with a prefix to none.
fn take_prefixed(
    alloc: Global,
    list: &[Vec<u8>],
    prefix: &[u8],
    names: &mut Names,
) -> Result<(), NoMemory>
    requires none { names.old.keys ≡ [] }
    requires differ { IsDistinct (λ a b. bytes_eq a.items b.items) list.now }
    ensures same { OnOk result (names_of names.new.keys ≡ names_with prefix.now (names_of list.now)) }
    ensures few { OnOk result (length names.new.keys ≤ length list.now) }
{
    for name in list {
        if name.as_slice().starts_with(prefix) {
            names.insert(Vec::from_slice(alloc, name.as_slice())?)?;
        }
    }
    Ok(())
}

/// The catalogue of these names, of which there must be one.
fn catalog_in(names: Names) -> Result<Catalog, CatalogFault>
    requires { length names.keys ≤ 65536 }
    ensures ok { IfOk result (λ catalog. some_names (names_of names.keys) ≡ Ok catalog) }
    ensures err { IfErr result (λ e. IsFault e (some_names (names_of names.keys))) }
    ensures within { IfOk result IsWithin }
{
    if names.is_empty() {
        return Err(CatalogFault::Empty);
    }
    Ok(Catalog { names })
}

impl Catalog {
    ghost use Rattle.tk_input.specs.Catalog.{catalog_from, catalog_of};

    /// Reads one name a record, in one pass over the bytes.
    pub fn read(alloc: Global, bytes: &[u8]) -> Result<Catalog, CatalogFault>
        ensures ok { IfOk result (λ names. catalog_of bytes.now ≡ Ok names) }
        ensures err { IfErr result (λ e. IsFault e (catalog_of bytes.now)) }
        ensures within { IfOk result IsWithin }
    {
        let mut names = IndexSet::with_hasher(alloc, BuildHasherDefault::new());
        take_records(alloc, bytes, &mut names)?;
        catalog_in(names)
    }

    /// A catalogue of these names, by the same rules as a file of one name a record.
    pub fn from_names(alloc: Global, list: &[Vec<u8>]) -> Result<Catalog, CatalogFault>
        ensures ok { IfOk result (λ names. catalog_from (names_of list.now) ≡ Ok names) }
        ensures err { IfErr result (λ e. IsFault e (catalog_from (names_of list.now))) }
        ensures within { IfOk result IsWithin }
    {
        let mut names = IndexSet::with_hasher(alloc, BuildHasherDefault::new());
        take_list(alloc, list, &mut names)?;
        catalog_in(names)
    }

    /// The names that begin with a prefix, in order. There may be none.
    pub fn with_prefix(&self, alloc: Global, prefix: &[u8]) -> Result<Catalog, NoMemory>
        ensures { IfOk result (λ names. names ≡ names_with prefix.now self.now) }
    {
        let mut names = IndexSet::with_hasher(alloc, BuildHasherDefault::new());
        take_prefixed(alloc, self.names.as_slice(), prefix, &mut names)?;
        Ok(Catalog { names })
    }

    /// How many names there are. No two are the same.
    pub fn len(&self) -> usize
        ensures value { result ≡ length self.now }
        ensures most { length self.now ≤ 65536 }
        ensures differ { AreDifferent self.now }
    {
        self.names.len()
    }

    /// The name of an object, in constant time.
    pub fn name(&self, o: Obj) -> &[u8]
        requires { IsObject (length self.now) o.0 }
        ensures { slice_get self.now (o.0 - 1) ≡ Some result.now }
    {
        self.names.as_slice()[o.0 as usize - 1].as_slice()
    }

    /// The object of this name, in constant time.
    pub fn find(&self, name: &[u8]) -> Option<Obj>
        ensures { option_map (λ o. o.0) result ≡ object_of self.now name.now }
    {
        let place = self.names.get_index_of(name)?;
        Some(Obj(place as u32 + 1))
    }
}
