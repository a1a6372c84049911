//! How a file of queries is read, and what each asks for, by its number.

ghost use Rattle.std.specs.Prelude.{◌≡◌, ◌≤◌, IfOk, IfErr, OnOk, Ok, Some, length, nat_le, ◌&&◌, option_map};
ghost use Rattle.std.specs.List.{list_all};
ghost use Rattle.csv.specs.Records.{fields_of};
ghost use Rattle.tk_input.specs.Catalog.{is_name as is_name_of};
ghost use Rattle.tk_base.specs.Digits.{digits_in, short_in};
ghost use Rattle.tk_multi.specs.Queries.{IsFault, IsReadAs, IsWithin, entry_at, has_name as has_name_of, is_prefix as is_prefix_of, queries_of, query_added, query_in, query_with as query_with_of};
ghost use Rattle.tk_base.specs.Objects.{IsOneOf};

use crate::query::Query;
use csv::ByteRecord;
use std::alloc::Global;
use std::marker::Model;
use tk_base::{NoMemory, digits_of, short_of};
use tk_input::{CatalogFault, Records};

const MAX_QUERIES: usize = 16;

/// The most bytes of a name, and of a prefix.
const MAX_NAME: usize = 255;

/// The queries of a file, by their numbers from 1.
#[derive(Debug, Drop)]
pub struct Queries {
    list: Vec<Query>,
}

impl Model for Queries {
    ghost use Rattle.std.specs.Prelude.{List};
    ghost use Rattle.tk_multi.specs.Queries.{IsWithin, QueryView};

    ghost Value = { List QueryView };

    ghost view = { λ q. q.list.items };

    ghost invariant = { λ q. IsWithin q.list.items };
}

fn is_visible(text: &[u8]) -> bool
    ensures { result ≡ list_all (λ b. nat_le 0x21 b && nat_le b 0x7e) text.now }
{
    text.iter().all(|b| 0x21 <= *b && *b <= 0x7e)
}

fn is_name(name: &[u8]) -> bool
    ensures { result ≡ is_name_of name.now }
{
    !name.is_empty() && name.len() <= MAX_NAME && is_visible(name)
}

fn is_prefix(prefix: &[u8]) -> bool
    ensures { result ≡ is_prefix_of prefix.now }
{
    prefix.len() <= MAX_NAME && is_visible(prefix)
}

fn query_with(
    alloc: Global,
    name: &[u8],
    k: &[u8],
    epsilon: &[u8],
    prefix: &[u8],
) -> Option<Result<Query, NoMemory>>
    ensures { IsReadAs result (query_with_of name.now (short_in k.now) (digits_in epsilon.now) prefix.now) }
{
    let k = short_of(k)?;
    let epsilon = digits_of(epsilon)?;
    if is_prefix(prefix) {
        Some(Query::new(alloc, name, k, epsilon, prefix))
    } else {
        None
    }
}

fn query_of(alloc: Global, row: &ByteRecord) -> Option<Result<Query, NoMemory>>
    ensures { IsReadAs result (query_in (fields_of row.now)) }
{
    if row.len() != 4 {
        return None;
    }
    query_with(alloc, row.get(0)?, row.get(1)?, row.get(2)?, row.get(3)?)
}

fn has_name(list: &[Query], name: &[u8]) -> bool
    ensures { result ≡ has_name_of list.now name.now }
{
    list.iter().any(|query| query.is_named(name))
}

fn take_query(alloc: Global, list: &mut Vec<Query>, row: &ByteRecord) -> Result<(), CatalogFault>
    ensures ok { OnOk result (query_added list.old.items (fields_of row.now) ≡ Ok list.new.items) }
    ensures err { IfErr result (λ e. IsFault e (query_added list.old.items (fields_of row.now))) }
    ensures few { OnOk result (length list.new.items ≤ 16) }
{
    if list.len() >= MAX_QUERIES {
        return Err(CatalogFault::TooMany);
    }
    let number = list.len() as u32 + 1;
    let Some(query) = query_of(alloc, row) else {
        return Err(CatalogFault::BadRow(number));
    };
    let query = query?;
    if !is_name(query.name()) {
        return Err(CatalogFault::BadName(number));
    }
    if has_name(list.as_slice(), query.name()) {
        return Err(CatalogFault::Repeated(number));
    }
    list.push(query)?;
    Ok(())
}

impl Queries {
    /// Reads one query a record, in one pass over the bytes.
    pub fn read(alloc: Global, bytes: &[u8]) -> Result<Queries, CatalogFault>
        ensures ok { IfOk result (λ queries. queries_of bytes.now ≡ Ok queries) }
        ensures err { IfErr result (λ e. IsFault e (queries_of bytes.now)) }
    {
        let mut rows = Records::new(alloc, bytes);
        let mut row = ByteRecord::new(alloc);
        let mut list = Vec::new(alloc);
        while rows.next(&mut row)? {
            take_query(alloc, &mut list, &row)?;
        }
        if list.is_empty() {
            return Err(CatalogFault::Empty);
        }
        Ok(Queries { list })
    }

    /// How many queries there are.
    pub fn len(&self) -> usize
        ensures value { result ≡ length self.now }
        ensures within { IsWithin self.now }
    {
        self.list.len()
    }

    /// All queries, in order.
    pub(crate) fn all(&self) -> &[Query]
        ensures value { result.now ≡ self.now }
        ensures within { IsWithin self.now }
    {
        self.list.as_slice()
    }

    /// The name of a query, by its number from 1.
    pub fn name(&self, q: u32) -> &[u8]
        requires { IsOneOf (length self.now) q }
        ensures { option_map (λ query. query.name) (entry_at self.now q) ≡ Some result.now }
    {
        self.list[q as usize - 1].name()
    }

    /// How many members a query asks for, as the file says: it may be past the limits.
    pub fn k(&self, q: u32) -> u64
        requires { IsOneOf (length self.now) q }
        ensures { option_map (λ query. query.k) (entry_at self.now q) ≡ Some result }
    {
        self.list[q as usize - 1].k()
    }

    /// Within which epsilon, as the file says: it may be past the limits.
    pub fn epsilon(&self, q: u32) -> u128
        requires { IsOneOf (length self.now) q }
        ensures { option_map (λ query. query.epsilon) (entry_at self.now q) ≡ Some result }
    {
        self.list[q as usize - 1].epsilon()
    }

    /// How the names of the objects of a query begin.
    pub fn prefix(&self, q: u32) -> &[u8]
        requires { IsOneOf (length self.now) q }
        ensures { option_map (λ query. query.prefix) (entry_at self.now q) ≡ Some result.now }
    {
        self.list[q as usize - 1].prefix()
    }
}
