//! The numbers among the words, as settings and as the width of a window, or the status that refuses them.

ghost use Rattle.std.specs.Prelude.{◌≡◌, IfOk};
ghost use Rattle.tk_load.specs.Faults.{setting_kind};
ghost use Rattle.tk_load.specs.Input.{settings_in, width_in};
ghost use Rattle.tk_load.specs.Reads.{Meets};
ghost use Rattle.tk_load.specs.Whole.{IsWidth};

use crate::reading::bad_whole;
use crate::status::{InputKind, Status};
use std::alloc::Global;
use tk_base::{SettingFault, Settings};

const MAX_WIDTH: u64 = 1_000_000;

/// What a refused setting is told as.
pub fn kind_of(fault: SettingFault) -> InputKind
    ensures { result ≡ setting_kind fault }
{
    match fault {
        SettingFault::BadCount => InputKind::BadCount,
        SettingFault::BadK => InputKind::BadK,
        SettingFault::BadEpsilon => InputKind::BadEpsilon,
        SettingFault::BadWeight => InputKind::BadWeight,
    }
}

/// The settings of a run, and the width of its window, in ticks.
#[derive(Clone, Copy)]
pub struct Limits {
    pub settings: Settings,
    pub width: Option<u32>,
}

/// The width of a window, where there is one, within its limits.
pub fn width_by(alloc: Global, width: Option<u64>) -> Result<Option<u32>, Status>
    ensures range { IfOk result IsWidth }
    ensures meets { Meets (λ w. w) (width_in width) result }
{
    match width {
        None => Ok(None),
        Some(width) => {
            if 0 < width && width <= MAX_WIDTH {
                Ok(Some(width as u32))
            } else {
                Err(bad_whole(alloc, InputKind::BadWidth))
            }
        }
    }
}

/// The settings of these numbers.
pub fn settings_by(
    alloc: Global,
    k: u64,
    epsilon: u128,
    own_weight: u64,
    objects: u64,
    monitors: u64,
) -> Result<Settings, Status>
    ensures objects { IfOk result (λ s. s.objects ≡ objects) }
    ensures monitors { IfOk result (λ s. s.monitors ≡ monitors) }
    ensures meets { Meets (λ s. s) (settings_in k epsilon own_weight objects monitors) result }
{
    match Settings::new(k, epsilon, own_weight, objects, monitors) {
        Ok(settings) => Ok(settings),
        Err(fault) => Err(bad_whole(alloc, kind_of(fault))),
    }
}
