ghost use Rattle.std.specs.Prelude.{◌≡◌, [], IfOk};
ghost use Rattle.std.specs.Arc.{arc_value};
ghost use Rattle.tk_wire.specs.Net.{faults_after};
ghost use Rattle.tk_net.specs.Memory.{new_memory_rest, DoesWork};

use crate::mem_bell::MemBell;
use crate::plan::Plan;
use std::alloc::Global;
use std::marker::Model;
use std::sync::Arc;
use std::sync::atomic::{AtomicBool, Ordering};
use std::thread;
use tk_base::NoMemory;
use tk_wire::{NetFault, Rest};

/// How often a rest looks at its bell, and lets others run in between.
const LOOKS: u32 = 64;

/// How one who reads a link in memory waits.
#[derive(Drop)]
pub struct MemRest {
    rung: Arc<AtomicBool, Global>,
    plan: Arc<Plan, Global>,
    faults: u64,
}

impl Model for MemRest {
    ghost use Rattle.std.specs.Prelude.{◌≡◌, []};
    ghost use Rattle.std.specs.Arc.{arc_value};
    ghost use Rattle.tk_net.specs.Memory.{MemoryRest};

    ghost Value = { MemoryRest };

    ghost view = { λ r. record { faults = r.faults; fails = (arc_value r.plan).fails } };

    ghost invariant = { λ r. (arc_value r.plan).fails ≡ [] → r.faults ≡ 0 };
}

// Returns once the bell has rung, or when it was looked at often enough.
fn doze(rung: &AtomicBool) {
    for _ in 0..LOOKS {
        if rung.swap(false, Ordering::SeqCst) {
            return;
        }
        thread::yield_now();
    }
}

impl MemRest {
    /// A rest, and the bell that ends it early.
    pub(crate) fn pair(
        alloc: Global,
        plan: &Arc<Plan, Global>,
    ) -> Result<(MemRest, MemBell), NoMemory>
        ensures { IfOk result (λ made. made.0 ≡ new_memory_rest (arc_value plan.now).fails) }
    {
        let rung = Arc::new(alloc, AtomicBool::new(false))?;
        let bell = MemBell {
            rung: Arc::try_clone(&rung)?,
        };
        let plan = Arc::try_clone(plan)?;
        let rest = MemRest {
            rung,
            plan,
            faults: 0,
        };
        Ok((rest, bell))
    }
}

impl Rest for MemRest {
    ghost fault_count = { λ r. r.faults };

    fn faults(&self) -> u64
        ensures value { result ≡ self.now.faults }
        // Where no call of its net is listed.
        ensures quiet { self.now.fails ≡ [] → result ≡ 0 }
    {
        let _ = &self.plan;
        self.faults
    }

    fn rest(&mut self) -> Result<(), NetFault>
        ensures counted { self.new.faults ≡ faults_after result self.old.faults }
        // Where no call of its net is listed.
        ensures quiet { self.old.fails ≡ [] → DoesWork result }
        ensures kept { self.new.fails ≡ self.old.fails }
    {
        if self.plan.refuses() {
            self.faults = self.faults.saturating_add(1);
            return Err(NetFault::Failed);
        }
        doze(&self.rung);
        Ok(())
    }
}
