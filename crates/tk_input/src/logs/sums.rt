//! Sums of changes over the fronts that a cut reaches.

ghost use Rattle.std.specs.Prelude.{◌≡◌, ◌*◌, ◌≤◌, ◌^◌, All, if◌then◌else◌, ◌==◌, length, pos, take, unsigned_abs};
ghost use Rattle.tk_input.specs.Logs.{ArePlaces, IsCut, sum_for, total as total_at, value_of, weight_for, weight_of};
ghost use Rattle.tk_input.specs.Rows.{logs_in};

use crate::change::Change;
use crate::part::Part;
use tk_base::{Cut, Obj, Places};

fn by_of(change: Change, obj: Obj) -> i128
    ensures { result ≡ (if change.obj.0 == obj.0 then change.by else pos 0) }
{
    if change.obj == obj { change.by } else { 0 }
}

fn front_sum(part: &Part, place: u32, obj: Obj) -> i128
    requires place { place ≤ length part.now }
    requires weight { weight_for obj.0 part.now ≤ 2 ^ 100 }
    ensures value { result ≡ sum_for obj.0 (take place part.now) }
    ensures size { unsigned_abs result ≤ 2 ^ 100 }
{
    let changes = part.changes();
    let mut sum = 0;
    for i in 0..place as usize {
        sum += by_of(changes.at(i), obj);
    }
    sum
}

/// The sum of the changes of an object that these places of a monitor reach.
pub fn value_in(row: &[Part], places: &Places, obj: Obj) -> i128
    requires places { ArePlaces row.now places.now }
    requires weight { weight_of row.now obj.0 ≤ 2 ^ 100 }
    ensures value { result ≡ value_of row.now places.now obj.0 }
    ensures size { unsigned_abs result ≤ 2 ^ 100 }
{
    let mut value = 0;
    for (f, part) in row.iter().enumerate() {
        value += front_sum(part, places.at(f), obj);
    }
    value
}

/// The sum of the changes of an object that a cut reaches.
pub fn total_in(rows: &[Vec<Part>], cut: &Cut, obj: Obj) -> i128
    requires monitors { length rows.now ≤ 64 }
    requires cut { IsCut (logs_in rows.now) cut.now }
    requires weights { All (λ parts. weight_of parts obj.0 ≤ 2 ^ 100) (logs_in rows.now) }
    ensures value { result ≡ total_at (logs_in rows.now) obj.0 cut.now }
    ensures size { unsigned_abs result ≤ 64 * 2 ^ 100 }
{
    let mut total = 0;
    for (j, row) in rows.iter().enumerate() {
        total += value_in(row.as_slice(), cut.at(j), obj);
    }
    total
}
