// How a coordinator begins.
ghost use Rattle.std.specs.Prelude.{◌≡◌, IfOk};
ghost use Rattle.tk_journal.specs.Legal.{IsLegal, opened, start};
ghost use Rattle.tk_journal.specs.Readings.{factor};
ghost use Rattle.tk_journal.specs.declared.noted.Noted.{Noted};
ghost use Rattle.tk_coord.specs.Coordinator.{Begins, CanBegin, with_factors};

use crate::board::Board;
use crate::coordinator::Coordinator;
use crate::entries::{first_assigns, first_objects};
use crate::journal::Journal;
use crate::opening::table_assigns;
use crate::phase::Phase;
use crate::state::State;
use crate::turns::Turns;
use std::alloc::Global;
use tk_base::{NoMemory, ObjSet, Settings};
use tk_journal::Noted;
use tk_rows::Table;

impl Coordinator {
    /// The members are objects 1 to k, all factors are 0, and each monitor is sent its first Assign.
    pub fn new(alloc: Global, settings: Settings) -> Result<Coordinator, NoMemory>
        ensures settings { IfOk result (λ c. c.settings ≡ settings) }
        ensures journal { IfOk result (λ c. c.journal ≡ opened (start settings)) }
        ensures legal { IfOk result (λ c. IsLegal (start settings) c.journal) }
    {
        let monitors = settings.monitors();
        let members = first_objects(alloc, settings.k())?;
        let table = Table::new(alloc, settings.objects(), monitors)?;
        table.promise();
        let journal = first_assigns(alloc, &members, monitors)?;
        Coordinator::begin(alloc, settings, members, table, journal)
    }

    /// Begins with these members and factors: each monitor is sent its factor of every object.
    pub fn with_table(
        alloc: Global,
        settings: Settings,
        members: ObjSet,
        table: Table,
    ) -> Result<Coordinator, NoMemory>
        requires { CanBegin settings members table }
        ensures settings { IfOk result (λ c. c.settings ≡ settings) }
        ensures journal { IfOk result (λ c. c.journal ≡ opened (with_factors settings members table)) }
        ensures legal { IfOk result (λ c. IsLegal (with_factors settings members table) c.journal) }
    {
        table.promise();
        let journal = table_assigns(alloc, &settings, &members, &table)?;
        Coordinator::begin(alloc, settings, members, table, journal)
    }

    /// Begins with a journal of the first Assigns.
    fn begin(
        alloc: Global,
        settings: Settings,
        members: ObjSet,
        table: Table,
        journal: Vec<Noted>,
    ) -> Result<Coordinator, NoMemory>
        requires { Begins settings members table journal.items }
        ensures { IfOk result (λ c. c ≡ record { settings = settings; journal = journal.items }) }
    {
        let monitors = settings.monitors();
        let journal = Journal::with_entries(alloc, monitors, journal)?;
        let board = Board::new(alloc, settings.objects(), members, table)?;
        Ok(Coordinator {
            settings,
            state: State::begun(alloc, board, monitors)?,
            phase: Phase::new(settings),
            journal,
            turns: Turns::new(alloc),
        })
    }
}
