//! What a monitor shows of its parts, and how one of them grows.

ghost use Rattle.std.specs.Prelude.{◌≡◌, ◌-◌, [], OnErr, OnOk, slice_index_or};
ghost use Rattle.tk_trail.specs.Growing.{grown};
ghost use Rattle.tk_monitor.specs.Board.{IsOneOf};
ghost use Rattle.tk_monitor.specs.Monitored.{IsFeederOf};
ghost use Rattle.tk_monitor.specs.Stepped.{growing};
ghost use Rattle.tk_trail.specs.Legal.{HasNext, IsLegal, part_length, place_of};
ghost use Rattle.tk_trail.specs.Readings.{value_of_object};
ghost use Rattle.tk_trail.specs.Setup.{IsSetup};

use crate::monitor::Monitor;
use crate::parts::grow_part;
use tk_base::{Feeder, NoMemory, Obj};
use tk_input::{Change, Part};

impl Monitor {
    /// The part of a feeder.
    pub fn part(&self, f: Feeder) -> &Part
        requires { IsFeederOf self.now.setup f.0 }
        ensures { result.now ≡ slice_index_or self.now.setup.parts (f.0 - 1) [] }
    {
        let i = (f.0 - 1) as usize;
        &self.parts[i]
    }

    /// How many changes it has.
    pub fn length(&self, f: Feeder) -> usize
        requires { IsFeederOf self.now.setup f.0 }
        ensures { result ≡ part_length self.now.setup f.0 }
    {
        self.part(f).len()
    }

    /// The value of an object, in the time of a logarithm of the factors.
    pub fn value(&self, o: Obj) -> i128
        requires { IsOneOf self.now.setup.objects o.0 }
        ensures { result ≡ value_of_object self.now.setup self.now.trail o.0 }
    {
        self.board.value(o)
    }

    /// How many of them are raised, those before the start included.
    pub fn place(&self, f: Feeder) -> u32
        requires { IsFeederOf self.now.setup f.0 }
        ensures { result ≡ place_of self.now.setup self.now.trail f.0 }
    {
        let i = (f.0 - 1) as usize;
        self.next[i]
    }

    /// Puts a change in front of the last record of a feeder, which is not raised yet, and keeps room for its raise. Takes
    /// constant time on average.
    pub fn grow(&mut self, f: Feeder, change: Change) -> Result<(), NoMemory>
        requires next { HasNext self.old.setup self.old.trail f.0 }
        requires limits { IsSetup (grown self.old.setup f.0 (change.obj.0, change.by)) }
        ensures ok { OnOk result (self.new ≡ growing self.old f.0 (change.obj.0, change.by)) }
        ensures err { OnErr result (self.new ≡ self.old) }
        ensures legal { IsLegal self.new.setup self.new.trail }
    {
        let i = (f.0 - 1) as usize;
        self.trail.reserve()?;
        grow_part(&mut self.parts, i, change)?;
        self.trail.keep_raise();
        Ok(())
    }
}
