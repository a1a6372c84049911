ghost use Rattle.std.specs.Prelude.{◌≡◌};
ghost use Rattle.std.specs.Arc.{arc_value};
ghost use Rattle.tk_net.specs.Memory.{new_memory_link};

use crate::mem_link::MemLink;
use crate::plan::Plan;
use crate::ring;
use crate::ring::RingEnds;
use crate::source::Source;
use std::alloc::Global;
use std::sync::Arc;
use tk_wire::Took;

/// The end of a connection in memory, from which a greeting is read.
#[derive(Drop)]
pub(crate) struct MemSource {
    ends: RingEnds,
    plan: Arc<Plan, Global>,
}

impl MemSource {
    pub(crate) fn new(ends: RingEnds, plan: Arc<Plan, Global>) -> MemSource {
        MemSource { ends, plan }
    }

    /// The link over the same end.
    pub(crate) fn into_link(self) -> MemLink
        ensures { result ≡ new_memory_link (arc_value self.plan).fails }
    {
        MemLink::new(self.ends, self.plan)
    }
}

impl Source for MemSource {
    fn read(&mut self, into: &mut [u8]) -> Took {
        ring::take(&self.plan, &mut self.ends.inbox, into)
    }
}
