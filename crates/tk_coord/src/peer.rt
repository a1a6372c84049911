//! The coordinator's view of each monitor, and for which of them the open round waits.

ghost use Rattle.std.specs.Prelude.{◌≡◌, ◌≢◌, ℕ, None, Some, slice_get, not, false, true, length, IfOk};
ghost use Rattle.std.specs.Bool.{OnTrue, OnFalse};
ghost use Rattle.tk_coord.specs.declared.peer.Peer.{Peer};
ghost use Rattle.tk_coord.specs.Keeping.{AreChanged, AreOthers, HasOther, first_peer, is_but};

use crate::answer::{Answer, Progress};
use std::alloc::Global;
use tk_base::NoMemory;

/// What the coordinator knows of one monitor.
#[derive(Debug, Drop)]
pub struct Peer {
    /// How many Assigns were sent.
    pub assigns: u64,
    /// Cleared by each Assign.
    pub answer: Option<Answer>,
    /// From the last fresh Settled, also from before the last Assign.
    pub progress: Option<Progress>,
    /// Whether the open round still waits for this monitor's Values.
    pub waits: bool,
}

/// The peers of monitors to each of which one Assign was sent.
pub fn new_peers(alloc: Global, monitors: u32) -> Result<Vec<Peer>, NoMemory>
    ensures count { IfOk result (λ peers. length peers.items ≡ monitors) }
    ensures each { IfOk result (λ peers. (i : ℕ) (l : Peer) → slice_get peers.items i ≡ Some l → l ≡ first_peer) }
{
    let mut peers = Vec::with_capacity(alloc, monitors as usize)?;
    for j in 0..monitors {
        peers.push_reserved(Peer {
            assigns: 1,
            answer: None,
            progress: None,
            waits: false,
        });
    }
    Ok(peers)
}

/// Each monitor was sent a Collect, but for the one at this place.
pub fn ask(peers: &mut [Peer], but: Option<usize>)
    ensures count { length peers.new ≡ length peers.old }
    ensures each { AreChanged (λ i l. record l { waits = not (is_but but i) }) peers.old peers.new }
{
    for (place, peer) in peers.iter_mut().enumerate() {
        peer.waits = but != Some(place);
    }
}

/// Whether the round waits for no other monitor than the one at this place.
pub fn waits_for_no_other(peers: &[Peer], place: usize) -> bool
    ensures none { OnTrue result (AreOthers (λ l. l.waits ≡ false) peers.now place) }
    ensures some { OnFalse result (HasOther (λ l. l.waits ≡ true) peers.now place) }
{
    for (other, peer) in peers.iter().enumerate() {
        if other != place && peer.waits {
            return false;
        }
    }
    true
}
