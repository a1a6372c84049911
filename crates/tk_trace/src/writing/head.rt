//! What stands before the logs: what the run was set up with, and the names of the objects.

ghost use Rattle.std.specs.Prelude.{◌≡◌, ◌++◌, ◌<◌, length, All, OnOk};
ghost use Rattle.std.specs.List.{flat_map};
ghost use Rattle.tk_trace.specs.Spelling.{name as name_of, setup as setup_of};

use super::fields::{bounds, number_u8, number_u32};
use tk_base::{NoMemory, Obj, Settings};
use tk_input::Catalog;

/// Appends the settings.
pub fn put_setup(out: &mut Vec<u8>, settings: &Settings) -> Result<(), NoMemory>
    ensures { OnOk result (out.new.items ≡ out.old.items ++ setup_of settings.now) }
{
    bounds(out, settings.k(), settings.epsilon())?;
    number_u32(out, settings.own_weight())?;
    number_u32(out, settings.objects())?;
    number_u32(out, settings.monitors())
}

fn name(out: &mut Vec<u8>, name: &[u8]) -> Result<(), NoMemory>
    requires { length name.now < 256 }
    ensures { OnOk result (out.new.items ≡ out.old.items ++ name_of name.now) }
{
    number_u8(out, name.len() as u8)?;
    out.extend_from_slice(name)?;
    Ok(())
}

/// Appends the names.
pub fn put_names(out: &mut Vec<u8>, names: &Catalog) -> Result<(), NoMemory>
    requires { All (λ name. length name < 256) names.now }
    ensures { OnOk result (out.new.items ≡ out.old.items ++ flat_map name_of names.now) }
{
    for i in 0..names.len() {
        name(out, names.name(Obj(i as u32 + 1)))?;
    }
    Ok(())
}
