//! How a monitor takes a frame of the coordinator: it refuses it, or notes it, with the answer where one is due.

ghost use Rattle.std.specs.Prelude.{◌≡◌, None, IfErr, OnOk, OnErr};
ghost use Rattle.tk_frames.specs.declared.frame.Frame.TheVariants as f;
ghost use Rattle.tk_trail.specs.Refusal.{refusal_of as refusal_at};
ghost use Rattle.tk_trail.specs.Legal.{IsLegal, after_take};
ghost use Rattle.tk_monitor.specs.Monitored.{AnswersTake};

use crate::messages::values;
use crate::monitor::Monitor;
use crate::refusals::{Shown, refusal_of};
use tk_base::{ObjSet, Pairs};
use tk_frames::{Frame, KeptFrame};
use tk_trail::MonitorRefusal;

impl Monitor {
    /// Takes a frame of the coordinator and answers it in the same step. Costs a block for each object that
    /// the frame, its answer and the members before name, and a look at all blocks; the room for raises stays free.
    pub fn take(&mut self, frame: Frame) -> Result<(), (MonitorRefusal, Frame)>
        // Which refusal comes, and that it hands the same frame back.
        ensures answer { AnswersTake (refusal_at self.old.setup self.old.trail frame) frame result }
        // What is left behind.
        ensures ok { OnOk result (self.new ≡ record self.old {
          trail = after_take self.old.setup self.old.trail frame;
        }) }
        ensures err { OnErr result (self.new ≡ self.old) }
        ensures legal { IsLegal self.new.setup self.new.trail }
    {
        if let Some(refusal) = self.refusal(&frame) {
            return Err((refusal, frame));
        }
        match self.take_allowed(frame) {
            Ok(()) => Ok(()),
            Err(frame) => Err((MonitorRefusal::NoMemory, frame)),
        }
    }

    fn refusal(&self, frame: &Frame) -> Option<MonitorRefusal>
        ensures value { result ≡ refusal_at self.now.setup self.now.trail frame.now }
        ensures legal { IsLegal self.now.setup self.now.trail }
    {
        let shown = Shown {
            objects: self.settings.objects(),
            seq: self.phase.seq,
            members: self.board.members(),
            told: self.phase.told,
            stopped: self.phase.stopped,
        };
        refusal_of(shown, frame)
    }

    fn take_allowed(&mut self, frame: Frame) -> Result<(), Frame>
        requires { refusal_at self.old.setup self.old.trail frame ≡ None }
        ensures same { IfErr result (λ g. g ≡ frame) }
        ensures ok { OnOk result (self.new ≡ record self.old {
          trail = after_take self.old.setup self.old.trail frame;
        }) }
        ensures err { OnErr result (self.new ≡ self.old) }
        ensures legal { IsLegal self.new.setup self.new.trail }
    {
        match frame {
            Frame::Assign {
                seq,
                members,
                changes,
            } => self.take_assign(seq, members, changes),
            Frame::Collect { round, objects } => self.take_collect(round, objects),
            Frame::Stop => self.take_stop(),
            _ => unreachable!(),
        }
    }

    fn take_assign(&mut self, seq: u64, members: ObjSet, changes: Pairs) -> Result<(), Frame>
        requires { refusal_at self.old.setup self.old.trail (f.Assign seq members changes) ≡ None }
        ensures same { IfErr result (λ g. g ≡ f.Assign seq members changes) }
        ensures ok { OnOk result (self.new ≡ record self.old {
          trail = after_take self.old.setup self.old.trail (f.Assign seq members changes);
        }) }
        ensures err { OnErr result (self.new ≡ self.old) }
        ensures legal { IsLegal self.new.setup self.new.trail }
    {
        let alloc = self.trail.alloc();
        let (Ok(mine), Ok(())) = (members.try_clone(), self.trail.reserve()) else {
            return Err(Frame::Assign {
                seq,
                members,
                changes,
            });
        };
        let took = KeptFrame::new(
            alloc,
            Frame::Assign {
                seq,
                members,
                changes,
            },
        )?;
        let Frame::Assign { changes, .. } = took.get() else {
            unreachable!()
        };
        let ended = self.trail.raises() == 0;
        let next = self.next.as_slice();
        match self.board.assign(alloc, seq, mine, changes, next, ended) {
            Err(_) => Err(took.into_frame()),
            Ok(answer) => {
                self.phase = self.phase.assigned(seq, self.board.is_broken(), ended);
                self.trail.took(took);
                self.trail.sent(answer);
                Ok(())
            }
        }
    }

    fn take_collect(&mut self, round: u64, objects: ObjSet) -> Result<(), Frame>
        requires { refusal_at self.old.setup self.old.trail (f.Collect round objects) ≡ None }
        ensures same { IfErr result (λ g. g ≡ f.Collect round objects) }
        ensures ok { OnOk result (self.new ≡ record self.old {
          trail = after_take self.old.setup self.old.trail (f.Collect round objects);
        }) }
        ensures err { OnErr result (self.new ≡ self.old) }
        ensures legal { IsLegal self.new.setup self.new.trail }
    {
        // The length is read for its clause, that the set ascends.
        let _ = objects.len();
        let alloc = self.trail.alloc();
        let answer = values(alloc, &self.board, self.phase.seq, round, &objects);
        let (Ok(answer), Ok(())) = (answer, self.trail.reserve()) else {
            return Err(Frame::Collect { round, objects });
        };
        let took = KeptFrame::new(alloc, Frame::Collect { round, objects })?;
        self.trail.took(took);
        self.trail.sent(answer);
        Ok(())
    }

    fn take_stop(&mut self) -> Result<(), Frame>
        requires { refusal_at self.old.setup self.old.trail f.Stop ≡ None }
        ensures same { IfErr result (λ g. g ≡ f.Stop) }
        ensures ok { OnOk result (self.new ≡ record self.old {
          trail = after_take self.old.setup self.old.trail f.Stop;
        }) }
        ensures err { OnErr result (self.new ≡ self.old) }
        ensures legal { IsLegal self.new.setup self.new.trail }
    {
        let took = KeptFrame::new(self.trail.alloc(), Frame::Stop)?;
        if self.trail.reserve().is_err() {
            return Err(took.into_frame());
        }
        self.trail.took(took);
        self.phase.stopped = true;
        Ok(())
    }
}
