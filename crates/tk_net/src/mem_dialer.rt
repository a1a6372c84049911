use crate::dialed_link::DialedLink;
use crate::mem_bell::MemBell;
use crate::mem_link::MemLink;
use crate::mem_rest::MemRest;
use crate::plan::Plan;
use crate::ring;
use crate::ring::RingEnds;
use rtrb::Producer;
use std::alloc::Global;
use std::sync::Arc;
use tk_base::NoMemory;
use tk_wire::Dialer;

/// A dialer in memory, for tests. It was made with its host.
#[derive(Drop)]
pub struct MemDialer {
    alloc: Global,
    plan: Arc<Plan, Global>,
    door: Producer<RingEnds>,
}

impl MemDialer {
    /// A dialer that hands the other ends of its connections in at this door.
    pub(crate) fn new(
        alloc: Global,
        plan: Arc<Plan, Global>,
        door: Producer<RingEnds>,
    ) -> MemDialer {
        MemDialer { alloc, plan, door }
    }
}

impl Dialer for MemDialer {
    type Link = DialedLink<MemLink>;

    type Rest = MemRest;

    type Bell = MemBell;

    fn dial(&mut self) -> Result<Option<(DialedLink<MemLink>, MemRest, MemBell)>, NoMemory> {
        if self.plan.refuses() || self.door.is_abandoned() || self.door.slots() == 0 {
            return Ok(None);
        }
        let (ours, theirs) = ring::joined(self.alloc)?;
        let link = MemLink::new(ours, Arc::try_clone(&self.plan)?);
        let (rest, bell) = MemRest::pair(self.alloc, &self.plan)?;
        self.door.push_reserved(theirs);
        Ok(Some((DialedLink::new(self.alloc, link), rest, bell)))
    }
}
