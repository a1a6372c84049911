//! The check: whether a monitor has to report or to tell its end, and how it does.

ghost use Rattle.std.specs.Prelude.{◌≡◌, ◌∷◌, ◌++◌, [], true, false, Ok, IfOk, OnOk, OnErr};
ghost use Rattle.tk_trail.specs.Readings.{at_ends};
ghost use Rattle.tk_trail.specs.Frames.{report_at, settled_at, report_is_due, end_is_due};
ghost use Rattle.tk_trail.specs.Legal.{IsLegal, after_check};
ghost use Rattle.tk_trail.specs.declared.entry.Entry.TheVariants.{Sent};
ghost use Rattle.tk_monitor.specs.Kept.{due_of};
ghost use Rattle.tk_monitor.specs.Monitored.{checked_at};
ghost use Rattle.tk_monitor.specs.declared.outcome.Checked.TheVariants.{Nothing};

use crate::messages::{report, settled};
use crate::monitor::Monitor;
use crate::outcome::Checked;
use tk_base::NoMemory;

/// What a check sends: a Report where something is broken, or that all parts are at their ends.
fn due(may_report: bool, broken: bool, ended: bool, told: bool) -> Checked
    ensures { result ≡ due_of may_report broken ended told }
{
    if may_report && broken {
        return Checked::Reported;
    }
    if may_report && !broken && ended && !told {
        return Checked::ToldEnd;
    }
    Checked::Nothing
}

impl Monitor {
    /// Sends a Report or tells the end where that is due. Costs two roots, and for a Report a block for each
    /// object that it holds and a look at all blocks; the room for raises stays free.
    pub fn check(&mut self) -> Result<Checked, NoMemory>
        ensures answer { IfOk result (λ c. c ≡ checked_at self.old.setup self.old.trail) }
        // Where nothing is due no memory is wanted.
        ensures nothing { checked_at self.old.setup self.old.trail ≡ Nothing → result ≡ Ok Nothing }
        ensures ok { OnOk result (self.new ≡ record self.old {
          trail = after_check self.old.setup self.old.trail;
        }) }
        ensures err { OnErr result (self.new ≡ self.old) }
        ensures legal { IsLegal self.new.setup self.new.trail }
    {
        let checked = self.checked();
        match checked {
            Checked::Reported => self.send_report()?,
            Checked::ToldEnd => self.tell_end()?,
            Checked::Nothing => {}
        }
        Ok(checked)
    }

    /// What a check would do now. Costs two roots.
    pub fn checked(&self) -> Checked
        ensures value { result ≡ checked_at self.now.setup self.now.trail }
        ensures legal { IsLegal self.now.setup self.now.trail }
    {
        let phase = self.phase;
        let ended = self.trail.raises() == 0;
        due(
            phase.may_report(),
            self.board.is_broken(),
            ended,
            phase.told,
        )
    }

    fn send_report(&mut self) -> Result<(), NoMemory>
        requires { report_is_due self.old.setup self.old.trail ≡ true }
        ensures ok { OnOk result (self.new ≡ record self.old {
          trail = self.old.trail ++ Sent (report_at self.old.setup self.old.trail) ∷ [];
        }) }
        ensures err { OnErr result (self.new ≡ self.old) }
        ensures legal { IsLegal self.new.setup self.new.trail }
    {
        let frame = report(self.trail.alloc(), &self.board, self.phase.seq)?;
        self.trail.reserve()?;
        self.trail.sent(frame);
        self.phase.reported = true;
        Ok(())
    }

    fn tell_end(&mut self) -> Result<(), NoMemory>
        requires no_report { report_is_due self.old.setup self.old.trail ≡ false }
        requires due { end_is_due self.old.setup self.old.trail ≡ true }
        requires ends { at_ends self.old.setup self.old.trail ≡ true }
        ensures ok { OnOk result (self.new ≡ record self.old {
          trail = self.old.trail ++ Sent (settled_at self.old.setup self.old.trail) ∷ [];
        }) }
        ensures err { OnErr result (self.new ≡ self.old) }
        ensures legal { IsLegal self.new.setup self.new.trail }
    {
        let alloc = self.trail.alloc();
        let frame = settled(alloc, self.next.as_slice(), self.phase.seq, true)?;
        self.trail.reserve()?;
        self.trail.sent(frame);
        self.phase.told = true;
        Ok(())
    }
}
