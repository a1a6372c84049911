//! Numbers and names, and lists of them, put behind a line.

ghost use Rattle.std.specs.Prelude.{◌≡◌, ◌++◌, [], ◌∷◌, OnOk, flat_map, slice_index_or, codes};
ghost use Rattle.tk_show.specs.Frames.{name_text, objects_text, pair_text, pairs_text, place_text, places_text};

use itoa::{Buffer, Integer};
use std::alloc::AllocError;
use tk_base::{Obj, ObjSet, Pairs, Places};
use tk_input::Catalog;

/// A number behind its name.
pub fn push_named<I: Integer>(line: &mut Vec<u8>, name: &[u8], number: I) -> Result<(), AllocError>
    ensures { OnOk result (line.new.items ≡ line.old.items ++ (name.now ++ I.text number)) }
{
    let mut buffer = Buffer::new();
    line.extend_from_slice(name)?;
    line.extend_from_slice(buffer.format(number).as_bytes())
}

/// The name of an object, nothing where the catalogue has none.
fn name_of(names: &Catalog, obj: Obj) -> &[u8]
    ensures { result.now ≡ slice_index_or ([] ∷ names.now) obj.0 [] }
{
    if 1 <= obj.0 && obj.0 as usize <= names.len() {
        names.name(obj)
    } else {
        b""
    }
}

/// A name behind a space.
pub fn push_name(line: &mut Vec<u8>, obj: Obj, names: &Catalog) -> Result<(), AllocError>
    ensures { OnOk result (line.new.items ≡ line.old.items ++ name_text names.now obj.0) }
{
    line.extend_from_slice(b" ")?;
    line.extend_from_slice(name_of(names, obj))
}

/// The names of some objects.
pub fn push_objects(line: &mut Vec<u8>, objects: &ObjSet, names: &Catalog) -> Result<(), AllocError>
    ensures { OnOk result (line.new.items ≡ line.old.items ++ objects_text names.now objects.now) }
{
    for i in 0..objects.len() {
        push_name(line, objects.at(i), names)?;
    }
    Ok(())
}

fn push_pair(line: &mut Vec<u8>, pair: (Obj, i128), names: &Catalog) -> Result<(), AllocError>
    ensures { OnOk result (line.new.items ≡ line.old.items ++ pair_text names.now (pair.0.0, pair.1)) }
{
    push_name(line, pair.0, names)?;
    push_named(line, b" ", pair.1)
}

/// Numbers with the names of their objects.
pub fn push_pairs(line: &mut Vec<u8>, pairs: &Pairs, names: &Catalog) -> Result<(), AllocError>
    ensures { OnOk result (line.new.items ≡ line.old.items ++ pairs_text names.now pairs.now) }
{
    for i in 0..pairs.len() {
        push_pair(line, pairs.at(i), names)?;
    }
    Ok(())
}

/// The places of a monitor.
pub fn push_places(line: &mut Vec<u8>, places: &Places) -> Result<(), AllocError>
    ensures { OnOk result (line.new.items ≡ line.old.items ++ places_text places.now) }
{
    for i in 0..places.len() {
        push_named(line, b" ", places.at(i))?;
    }
    Ok(())
}
