ghost use Rattle.std.specs.Prelude.{◌≡◌, [], IfOk};
ghost use Rattle.tk_journal.specs.Legal.{opened, start};

mod telling;
mod turning;
mod waiting;
mod weighing;

use crate::knock::Knock;
use crate::roster::Roster;
use crate::tally::Tally;
use std::alloc::Global;
use std::marker::Model;
use tk_base::{NoMemory, Settings};
use tk_coord::Coordinator;
use tk_hub::Hub;
use tk_wire::Wire;

/// One run of the protocol while it goes on: the hub, the seats that are taken, how many sets are told, how many bytes its frames
/// have, after how many seconds a stand-in takes a seat, and a connection with which the next session begins. Contracts see
/// all but the run and that.
#[derive(Drop)]
pub struct Session<W: Wire> {
    hub: Hub<W>,
    roster: Roster,
    told: usize,
    tally: Tally,
    missing: Option<u64>,
    run: u64,
    again: Option<Knock<W>>,
}

impl<W: Wire> Model for Session<W> {
    ghost use Rattle.tk_host.specs.Sitting.{SessionView};

    ghost Value = { SessionView W };

    ghost view = { λ s. record { hub = s.hub; roster = s.roster; told = s.told; tally = s.tally; missing = s.missing } };
}

impl<W: Wire + Drop> Session<W> {
    ghost use Rattle.tk_host.specs.Going.{IsGoing};

    /// Nobody is there.
    pub fn new(
        alloc: Global,
        settings: Settings,
        run: u64,
        missing: Option<u64>,
    ) -> Result<Session<W>, NoMemory>
        ensures settings { IfOk result (λ s. s.hub.coordinator.settings ≡ settings) }
        ensures journal { IfOk result (λ s. s.hub.coordinator.journal ≡ opened (start settings)) }
        ensures roster { IfOk result (λ s. s.roster ≡ []) }
        ensures missing { IfOk result (λ s. s.missing ≡ missing) }
        ensures told { IfOk result (λ s. s.told ≡ 0) }
        ensures going { IfOk result IsGoing }
    {
        let coordinator = Coordinator::new(alloc, settings)?;
        let hub = Hub::new(alloc, coordinator, run)?;
        Ok(Session {
            hub,
            roster: Roster::new(alloc),
            told: 0,
            tally: Tally::new(),
            missing,
            run,
            again: None,
        })
    }

    /// The hub.
    pub fn into_hub(self) -> Hub<W> {
        self.hub
    }

    /// The connection with which the next session begins.
    pub fn into_again(self) -> Option<Knock<W>> {
        self.again
    }
}
