//! The coordinator's border in a round, found by a scan of the table.

ghost use Rattle.std.specs.Prelude.{◌≡◌, ◌<◌, ◌≤◌, Some, length};
ghost use Rattle.std.specs.List.{All};
ghost use Rattle.tk_base.specs.Objects.{is_in};
ghost use Rattle.tk_base.specs.Pairs.{objects_of};
ghost use Rattle.tk_border.specs.Levels.{greatest_outside as greatest_outside_of, least_member as least_member_of};
ghost use Rattle.tk_alloc.specs.Resolving.{IsReady, own_factors, round_border};

use tk_base::{Obj, ObjSet, Pairs, Settings};
use tk_border::{lower, raise};
use tk_rows::Table;

/// Whether an object is among those of some values.
fn is_named(values: &Pairs, o: Obj) -> bool
    ensures { result ≡ is_in (objects_of values.now) o.0 }
{
    values.get(o).is_some()
}

fn least_member(table: &Table, members: &ObjSet) -> i128
    requires some { 0 < length members.now }
    requires within { All (λ o. o ≤ length table.now.rows) members.now }
    ensures { least_member_of (own_factors table.now) members.now ≡ Some result }
{
    let mut least = None;
    for place in 0..members.len() {
        least = lower(least, table.own(members.at(place)));
    }
    least.unwrap()
}

fn greatest_outside(table: &Table, count: u32, values: &Pairs) -> Option<i128>
    requires { count ≡ length table.now.rows }
    ensures { result ≡ greatest_outside_of (own_factors table.now) (objects_of values.now) }
{
    let mut greatest = None;
    for place in 0..count {
        let o = Obj(place + 1);
        if !is_named(values, o) {
            greatest = raise(greatest, table.own(o));
        }
    }
    greatest
}

/// The border of the coordinator in a round over the objects of some values. It looks at each object of
/// the table once, and looks it up among those.
pub fn own_border(settings: &Settings, table: &Table, members: &ObjSet, values: &Pairs) -> i128
    requires { IsReady settings.now table.now members.now (objects_of values.now) }
    ensures { result ≡ round_border settings.now table.now members.now (objects_of values.now) }
{
    table.promise();
    match greatest_outside(table, settings.objects(), values) {
        Some(greatest) => greatest,
        None => least_member(table, members) + settings.epsilon(),
    }
}
