//! What a session tells: which seats are taken, and which sets are published.

ghost use Rattle.std.specs.Prelude.{◌≡◌, ◌+◌, ◌<◌, ◌≤◌, ◌++◌, ◌∷◌, [], IfErr, IfSome, None, OnErr, OnOk, false, length};
ghost use Rattle.tk_hub.specs.Hub.{IsHub};
ghost use Rattle.tk_hub.specs.Visitor.{IsUnused};
ghost use Rattle.tk_hub.specs.declared.course.Course.TheVariants.{Open};

use crate::cause::Cause;
use crate::knock::Knock;
use crate::lines::{seat_line, set_line};
use crate::over::Over;
use crate::putting::put_line;
use crate::seat::Seat;
use crate::session::Session;
use std::alloc::Global;
use tk_base::Mon;
use tk_input::{Catalog, Sink};
use tk_wire::Wire;

impl<W: Wire + Drop> Session<W> {
    ghost use Rattle.tk_host.specs.Going.{IsBarred, IsGoing, IsMemory, IsOfSession, IsSeated, IsUntold, Steps, TellsAll, TellsMore, TellsOf, published_by, step_faults};
    ghost use Rattle.tk_host.specs.Seats.{is_stand_in};

    /// Notes a seat, and tells that it is taken.
    fn note<O: Sink>(&mut self, alloc: Global, seat: Seat, out: &mut O) -> Result<(), Over>
        ensures hub { self.new.hub ≡ self.old.hub }
        ensures roster { OnOk result (self.new.roster ≡ self.old.roster ++ seat ∷ []) }
        ensures more { OnErr result (IsSeated seat self.old.roster self.new.roster) }
        ensures tells { TellsMore result self.old self.new (O.written out.old) (O.written out.new) }
        ensures untold { IfErr result IsUntold }
        ensures told { self.new.told ≡ self.old.told }
        ensures tally { self.new.tally ≡ self.old.tally }
        ensures missing { self.new.missing ≡ self.old.missing }
        ensures counted { O.fault_count out.new ≡ step_faults result (O.fault_count out.old) }
    {
        let line = seat_line(alloc, &seat)?;
        self.roster.seat(seat)?;
        put_line(line, out)?;
        Ok(())
    }

    /// Holds the connection of one that has a seat until its Hello.
    fn let_in(&mut self, link: W) -> Result<(), Over>
        requires unused { IsUnused W.tells (W.traffic link) }
        requires going { self.old.hub.course ≡ Open }
        ensures coordinator { self.new.hub.coordinator ≡ self.old.hub.coordinator }
        ensures course { self.new.hub.course ≡ self.old.hub.course }
        ensures hub { IsHub self.new.hub }
        ensures roster { self.new.roster ≡ self.old.roster }
        ensures told { self.new.told ≡ self.old.told }
        ensures tally { self.new.tally ≡ self.old.tally }
        ensures missing { self.new.missing ≡ self.old.missing }
        ensures memory { IfErr result IsMemory }
    {
        if self.hub.admit(link).is_err() {
            return Err(Over::Ended(Cause::Memory));
        }
        Ok(())
    }

    /// A monitor that joins, or a stand-in where these may, takes a seat over its connection.
    pub fn seat<O: Sink>(
        &mut self,
        alloc: Global,
        seat: Seat,
        link: W,
        out: &mut O,
    ) -> Result<(), Over>
        requires unused { IsUnused W.tells (W.traffic link) }
        requires going { IsGoing self.old }
        requires missing { self.old.missing ≡ None → is_stand_in seat ≡ false }
        ensures steps { Steps result self.old self.new }
        ensures inside { IfErr result IsOfSession }
        ensures tells { TellsMore result self.old self.new (O.written out.old) (O.written out.new) }
        ensures counted { O.fault_count out.new ≡ step_faults result (O.fault_count out.old) }
    {
        self.note(alloc, seat, out)?;
        self.let_in(link)
    }

    /// Why a monitor that greets ends the session, if it does: it has joined already, or a stand-in sits in its seat.
    fn bars(&self, mon: Mon) -> Option<Cause>
        ensures { IfSome result (IsBarred self.now.roster) }
    {
        if self.roster.has(u64::from(mon.0)) {
            return Some(Cause::Again(mon));
        }
        if self.roster.misses(u64::from(mon.0)) {
            return Some(Cause::Back(mon));
        }
        None
    }

    /// Lets a monitor join. One that has a seat already ends the session, and its connection is kept for the next.
    pub fn join<O: Sink>(&mut self, alloc: Global, knock: Knock<W>, out: &mut O) -> Result<(), Over>
        requires { IsGoing self.old }
        ensures steps { Steps result self.old self.new }
        ensures inside { IfErr result IsOfSession }
        ensures tells { TellsMore result self.old self.new (O.written out.old) (O.written out.new) }
        ensures counted { O.fault_count out.new ≡ step_faults result (O.fault_count out.old) }
    {
        if let Some(cause) = self.bars(knock.greeting.mon) {
            self.again = Some(knock);
            return Err(Over::Ended(cause));
        }
        let Knock { link, greeting, .. } = knock;
        self.seat(alloc, Seat::Joined(greeting), link, out)
    }

    /// Tells one set more.
    fn tell_next<O: Sink>(
        &mut self,
        alloc: Global,
        names: &Catalog,
        out: &mut O,
    ) -> Result<(), Over>
        requires standing { IsHub self.old.hub }
        requires more { self.old.told < length (published_by self.old) }
        requires named { self.old.hub.coordinator.settings.objects ≤ length names.now }
        ensures hub { self.new.hub ≡ self.old.hub }
        ensures roster { self.new.roster ≡ self.old.roster }
        ensures tally { self.new.tally ≡ self.old.tally }
        ensures missing { self.new.missing ≡ self.old.missing }
        ensures told { OnOk result (self.new.told ≡ self.old.told + 1) }
        ensures tells { TellsOf names.now result self.old self.new (O.written out.old) (O.written out.new) }
        ensures untold { IfErr result IsUntold }
        ensures counted { O.fault_count out.new ≡ step_faults result (O.fault_count out.old) }
    {
        let coordinator = self.hub.coordinator();
        // The journal is read for its clause, that its entries are of the settings, and the count for its range.
        let _ = coordinator.journal();
        let _ = coordinator.published();
        let publication = coordinator.publication(self.told);
        let line = set_line(alloc, names, &self.roster, publication)?;
        self.told += 1;
        put_line(line, out)?;
        Ok(())
    }

    /// Tells the sets that are not told yet.
    pub fn tell<O: Sink>(&mut self, alloc: Global, names: &Catalog, out: &mut O) -> Result<(), Over>
        requires hub { IsHub self.old.hub }
        requires named { self.old.hub.coordinator.settings.objects ≤ length names.now }
        requires within { self.old.told ≤ length (published_by self.old) }
        ensures hub { self.new.hub ≡ self.old.hub }
        ensures roster { self.new.roster ≡ self.old.roster }
        ensures tally { self.new.tally ≡ self.old.tally }
        ensures missing { self.new.missing ≡ self.old.missing }
        ensures all { OnOk result (TellsAll self.new) }
        ensures tells { TellsOf names.now result self.old self.new (O.written out.old) (O.written out.new) }
        ensures untold { IfErr result IsUntold }
        ensures counted { O.fault_count out.new ≡ step_faults result (O.fault_count out.old) }
    {
        for _ in self.told..self.hub.coordinator().published() {
            self.tell_next(alloc, names, out)?;
        }
        Ok(())
    }
}
