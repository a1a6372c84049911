//! Expanded logs, and which tick ends at a place of one.

ghost use Rattle.std.specs.Prelude.{◌≡◌, ◌≤◌, length};
ghost use Rattle.std.specs.List.Sorted.{IsNonDecreasing};
ghost use Rattle.tk_window.specs.Window.{tick_ending};

use tk_base::NoMemory;
use tk_input::Part;

/// A log without ticks that moves the window from tick to tick, and the place after each tick.
#[derive(Drop)]
pub struct Expanded {
    pub part: Part,
    pub ends: Vec<u32>,
    ghost ordered: { IsNonDecreasing ends.items },
    ghost few: { length ends.items ≤ 1000001 },
}

impl Expanded {
    ghost use Rattle.std.specs.Prelude.{IfOk};
    ghost use Rattle.tk_window.specs.Expanded.{expansion_of};

    /// Of a part that is shared another holder of its list, and a copy of the ends.
    pub fn try_clone(&self) -> Result<Expanded, NoMemory>
        ensures { IfOk result (λ e. expansion_of e ≡ expansion_of self.now) }
    {
        let part = self.part.try_clone()?;
        let ends = self.ends.clone()?;
        Ok(Expanded { part, ends })
    }
}

/// The first tick that ends at a place, 0 for the place before the first change. Takes time with the logarithm of the
/// number of ticks.
pub fn tick_at(expanded: &Expanded, place: u32) -> Option<u32>
    ensures { result ≡ tick_ending expanded.now.ends.items place }
{
    if place == 0 {
        return Some(0);
    }
    let i = expanded.ends.partition_point(|end| *end < place);
    if i < expanded.ends.len() && expanded.ends[i] == place {
        Some(i as u32 + 1)
    } else {
        None
    }
}
