// A frame is taken: tested, prepared, and noted with all that it brings about.
ghost use Rattle.std.specs.Prelude.{◌≡◌, not, false, nat_lt, [], ◌<◌, ◌≤◌, ◌++◌, IfOk, IfErr, OnOk, Some, None};
ghost use Rattle.tk_frames.specs.declared.frame.Frame.{Frame};
ghost use Rattle.tk_journal.specs.Laws.{IsMonitor};
ghost use Rattle.tk_journal.specs.Legal.{Opening, IsLegal, turn_of};
ghost use Rattle.tk_journal.specs.Publishing.{differs, publications};
ghost use Rattle.tk_base.specs.History.{last_of};
ghost use Rattle.tk_journal.specs.Readings.{assigns_sent, in_force, members_at};
ghost use Rattle.tk_journal.specs.Refusal.{known_by, refusal_of, shown_by};
ghost use Rattle.tk_journal.specs.Turns.{streak};
ghost use Rattle.tk_journal.specs.declared.noted.Noted.{Noted};
ghost use Rattle.tk_journal.specs.declared.noted.Noted.TheVariants.{Got};
ghost use Rattle.tk_journal.specs.declared.refusal.CoordRefusal.TheVariants.{NoMemory as NoRoom};
ghost use Rattle.tk_coord.specs.Checks.{IsKnown, known_in};
ghost use Rattle.tk_coord.specs.Closing.{Closes, has_news_at, said_in};
ghost use Rattle.tk_coord.specs.Coordinator.{IsJournal, IsRefusal};
ghost use Rattle.tk_coord.specs.Grounds.{IsAnswered};
ghost use Rattle.tk_coord.specs.Refusals.{shown_in};
ghost use Rattle.tk_coord.specs.State.{Stands};
ghost use Rattle.tk_coord.specs.Steps.{AreValues, IsReport, IsSettled, IsStep, quiet_turn};
ghost use Rattle.tk_coord.specs.declared.step.Reply.TheVariants.{Nothing};

use crate::answer::Progress;
use crate::checks::Known;
use crate::coordinator::Coordinator;
use crate::coordinator::room::keep;
use crate::dealing::passes;
use crate::outcomes::{end_round, end_short, nothing, open_full, open_wide};
use crate::peer::waits_for_no_other;
use crate::phase::Phase;
use crate::publishing::{Answers, is_other, others_settled, publishing};
use crate::refusals::{Shown, refusal_of, shown_of};
use crate::step::{Reply, Statement, Step, TurnOutcome, short_kind};
use tk_alloc::Reported;
use tk_base::{Mon, NoMemory};
use tk_frames::Frame;
use tk_journal::{CoordRefusal, Noted, Turn, TurnKind};

impl Coordinator {
    /// Takes a frame of a monitor and notes it, with what it brings about.
    /// Costs what the frame names times a logarithm, and where a round ends its objects times the square of the monitors.
    pub fn take(&mut self, mon: Mon, frame: Frame) -> Result<(), (CoordRefusal, Frame)>
        requires some_monitor { 0 < mon.0 }
        requires monitor { mon.0 ≤ self.old.settings.monitors }
        // a frame that is refused by no test is noted with all that it brings about
        ensures ok { OnOk result (refusal_of self.old.settings self.old.journal mon.0 frame ≡ None) }
        ensures turn { OnOk result (self.new.journal
            ≡ self.old.journal ++ turn_of self.old.settings self.old.journal (Got mon frame)) }
        // the first test that it does not pass refuses it; want of memory, only what passes all
        ensures refused { IfErr result (λ e. IsRefusal NoRoom (refusal_of self.old.settings self.old.journal mon.0 frame) e.0) }
        ensures err { IfErr result (λ e. (e.1 ≡ frame) × (self.new ≡ self.old)) }
        ensures settings { self.new.settings ≡ self.old.settings }
        ensures legal { (o : Opening) → o.settings ≡ self.old.settings → IsLegal o self.old.journal → IsLegal o self.new.journal }
    {
        let step = match self.prepare(mon, &frame) {
            Ok(step) => step,
            Err(refusal) => return Err((refusal, frame)),
        };
        self.note(mon, frame, step)
    }

    /// Why a frame is refused by a test, if it is.
    fn refusal(&self, mon: Mon, frame: &Frame) -> Option<CoordRefusal>
        requires { IsMonitor self.now.settings mon.0 }
        ensures { result ≡ refusal_of self.now.settings self.now.journal mon.0 frame.now }
    {
        refusal_of(self.shown(mon), self.known(mon), frame)
    }

    /// What a frame brings about, or why it is refused.
    fn prepare(&mut self, mon: Mon, frame: &Frame) -> Result<Step, CoordRefusal>
        requires { IsMonitor self.old.settings mon.0 }
        ensures same { self.new ≡ self.old }
        ensures taken { IfOk result (λ _. refusal_of self.old.settings self.old.journal mon.0 frame.now ≡ None) }
        ensures step { IfOk result (IsStep self.old.settings self.old.journal mon frame.now) }
        ensures refused { IfErr result (IsRefusal NoRoom (refusal_of self.old.settings self.old.journal mon.0 frame.now)) }
    {
        if let Some(refusal) = self.refusal(mon, frame) {
            return Err(refusal);
        }
        match frame {
            Frame::Report { .. } => Ok(self.on_report(mon, frame)?),
            Frame::Values { .. } => Ok(self.on_values(mon, frame)?),
            Frame::Settled { .. } => Ok(self.on_settled(mon, frame)?),
            _ => unreachable!(),
        }
    }

    fn on_report(&self, mon: Mon, frame: &Frame) -> Result<Step, NoMemory>
        requires monitor { IsMonitor self.now.settings mon.0 }
        requires kind { IsReport frame.now }
        requires taken { refusal_of self.now.settings self.now.journal mon.0 frame.now ≡ None }
        ensures { IfOk result (IsStep self.now.settings self.now.journal mon frame.now) }
    {
        let Frame::Report {
            seq,
            border,
            values,
            ..
        } = frame
        else {
            unreachable!()
        };
        if self.is_stale(mon, *seq) {
            return Ok(self.quiet(Statement::Nothing, TurnKind::Stale));
        }
        if self.state.round.waiting {
            return Ok(self.quiet(Statement::Report, TurnKind::Note));
        }
        let report = Reported {
            mon,
            values: values.try_clone()?,
            border: *border,
        };
        self.answered(frame, report)
    }

    /// The round of a fresh Report that finds none open.
    fn answered(&self, frame: &Frame, report: Reported) -> Result<Step, NoMemory>
        requires { IsAnswered self.now.settings self.now.journal frame.now report }
        ensures { IfOk result (IsStep self.now.settings self.now.journal report.mon frame.now) }
    {
        let grounds = self.grounds(self.rounds()?);
        if passes(&grounds.phase.settings, grounds.board, &report) {
            let outcome = end_short(grounds, &report)?;
            let kind = short_kind(&outcome.reply);
            return Ok(outcome.step(Statement::Report, kind, false));
        }
        if self.is_tired() {
            let outcome = open_wide(grounds.alloc, grounds.phase, grounds.rounds)?;
            return Ok(outcome.step(Statement::Report, TurnKind::Wide, true));
        }
        let outcome = open_full(grounds, report)?;
        Ok(outcome.step(Statement::Report, TurnKind::Full, true))
    }

    fn on_settled(&self, mon: Mon, frame: &Frame) -> Result<Step, NoMemory>
        requires monitor { IsMonitor self.now.settings mon.0 }
        requires kind { IsSettled frame.now }
        requires taken { refusal_of self.now.settings self.now.journal mon.0 frame.now ≡ None }
        ensures { IfOk result (IsStep self.now.settings self.now.journal mon frame.now) }
    {
        let Frame::Settled { seq, last, places } = frame else {
            unreachable!()
        };
        let peers = self.state.peers.as_slice();
        if self.is_stale(mon, *seq) {
            return Ok(self.quiet(Statement::Nothing, TurnKind::Stale));
        }
        let place = mon.0 as usize - 1;
        let progress = Progress::of(places, *last)?;
        if self.state.round.waiting || !others_settled(peers, place) {
            return Ok(self.quiet(Statement::Settled(progress), TurnKind::Note));
        }
        let answers = Answers {
            peers,
            place,
            here: &progress,
        };
        let outcome = self.closes(answers)?;
        Ok(outcome.step(Statement::Settled(progress), TurnKind::Note, false))
    }

    /// What ends a turn in which every monitor has settled.
    fn closes(&self, answers: Answers) -> Result<TurnOutcome, NoMemory>
        ensures { IfOk result (Closes self.now.settings self.now.journal (said_in answers.entry)) }
    {
        let (entries, stopped) = publishing(
            self.journal.alloc(),
            answers,
            &self.phase.settings,
            self.state.board.members(),
            self.has_news(),
            self.journal.published() as u64 + 1,
        )?;
        Ok(TurnOutcome {
            entries,
            reply: Reply::Nothing,
            phase: Phase {
                stopped,
                ..self.phase
            },
        })
    }

    fn on_values(&mut self, mon: Mon, frame: &Frame) -> Result<Step, NoMemory>
        requires monitor { IsMonitor self.old.settings mon.0 }
        requires kind { AreValues frame.now }
        requires taken { refusal_of self.old.settings self.old.journal mon.0 frame.now ≡ None }
        ensures same { self.new ≡ self.old }
        ensures step { IfOk result (IsStep self.old.settings self.old.journal mon frame.now) }
    {
        let Frame::Values { border, values, .. } = frame else {
            unreachable!()
        };
        let report = Reported {
            mon,
            values: values.try_clone()?,
            border: *border,
        };
        let place = mon.0 as usize - 1;
        if !waits_for_no_other(self.state.peers.as_slice(), place) {
            return Ok(self.quiet(Statement::Values(report), TurnKind::Note));
        }
        let rounds = self.rounds()?;
        // Its place is free while the round waits for it, and none is read once the round is over.
        self.state.gathered[place] = report;
        let grounds = self.grounds(rounds);
        let wide = self.state.round.wide;
        let outcome = end_round(grounds, wide, self.state.gathered.as_slice())?;
        Ok(outcome.step(Statement::LastValues, TurnKind::End, false))
    }

    /// A frame that nothing follows.
    fn quiet(&self, statement: Statement, kind: TurnKind) -> Step
        ensures statement { result.statement ≡ statement }
        ensures entries { result.outcome.entries.items ≡ [] }
        ensures reply { result.outcome.reply ≡ Nothing }
        ensures phase { Stands self.now.settings self.now.journal result.outcome.phase }
        ensures turn { result.turn ≡ quiet_turn kind }
    {
        nothing(self.journal.alloc(), self.phase).step(statement, kind, false)
    }

    /// Whether the next short test that fails opens a wide round.
    fn is_tired(&self) -> bool
        ensures { result ≡ not (nat_lt (streak self.now.settings self.now.journal) 8) }
    {
        self.turns.is_tired()
    }

    /// Whether the members, or the k and epsilon in force, differ from those last published.
    fn has_news(&self) -> bool
        ensures { result ≡ has_news_at self.now.settings self.now.journal }
    {
        match self.published() {
            0 => true,
            count => {
                let last = self.publication(count - 1);
                is_other(last, &self.phase.settings, self.state.board.members())
            }
        }
    }

    /// What its Report or Values are judged by.
    fn known(&self, mon: Mon) -> Known
        requires monitor { IsMonitor self.now.settings mon.0 }
        ensures known { IsKnown (known_in result) }
        ensures value { known_in result ≡ known_by self.now.settings mon.0 self.now.journal }
    {
        Known {
            mon,
            objects: self.settings.objects(),
            members: self.state.board.members(),
            table: self.state.board.table(),
        }
    }

    /// What the number of its answer is judged by.
    fn shown(&self, mon: Mon) -> Shown
        requires monitor { IsMonitor self.now.settings mon.0 }
        ensures { shown_in result ≡ shown_by mon.0 self.now.journal }
    {
        let peer = &self.state.peers[mon.0 as usize - 1];
        shown_of(peer, &self.state.round, self.phase.stopped)
    }

    /// Whether an answer of the monitor is from before the last Assign to it.
    fn is_stale(&self, mon: Mon, seq: u64) -> bool
        requires monitor { IsMonitor self.now.settings mon.0 }
        ensures value { result ≡ nat_lt seq (assigns_sent mon.0 self.now.journal) }
        ensures journal { IsJournal self.now.settings self.now.journal }
    {
        seq < self.state.peers[mon.0 as usize - 1].assigns
    }

    /// Appends a frame and what it brings about; all room is taken first.
    fn note(&mut self, mon: Mon, frame: Frame, step: Step) -> Result<(), (CoordRefusal, Frame)>
        requires monitor { IsMonitor self.old.settings mon.0 }
        requires taken { refusal_of self.old.settings self.old.journal mon.0 frame ≡ None }
        requires step { IsStep self.old.settings self.old.journal mon frame step }
        ensures ok { OnOk result (self.new.journal
            ≡ self.old.journal ++ turn_of self.old.settings self.old.journal (Got mon frame)) }
        ensures err { IfErr result (λ e. (e.0 ≡ NoRoom) × (e.1 ≡ frame) × (self.new ≡ self.old)) }
        ensures settings { self.new.settings ≡ self.old.settings }
    {
        let more = step.outcome.entries.len() + 1;
        let kept = match keep(&mut self.journal, &mut self.turns, frame, more) {
            Ok(kept) => kept,
            Err(frame) => {
                drop(step);
                return Err((CoordRefusal::NoMemory, frame));
            }
        };
        let TurnOutcome {
            entries,
            reply,
            phase,
        } = step.outcome;
        self.journal.push(Noted::Got(mon, kept));
        self.journal.append(entries);
        self.state.take(mon, step.statement);
        self.state.reply(reply);
        self.phase = phase;
        let calm = self.state.is_calm();
        self.turns.push(Turn { calm, ..step.turn });
        Ok(())
    }
}
