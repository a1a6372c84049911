//! The lines of published sets, written as the journal grows.

ghost use Rattle.std.specs.Prelude.{◌≡◌, ◌-◌, ◌^◌, ◌<◌, ◌≤◌, false, length, IsErrOf, OnOk, OnErr};
ghost use Rattle.std.specs.List.{All};
ghost use Rattle.tk_input.specs.Files.{HasRisen};
ghost use Rattle.tk_input.specs.Sink.{Grows, GrowsByFront};
ghost use Rattle.tk_hub.specs.Lines.{AreNamed, IsAt, line_faults, line_of, passing};
ghost use Rattle.tk_hub.specs.Writing.{CutsLine, WritesLines};
ghost use Rattle.tk_hub.specs.declared.lines.LineFault.TheVariants.{NoMemory as OutOfMemory, WriteFailed as NotWritten};

use std::alloc::Global;
use tk_base::NoMemory;
use tk_input::{Catalog, PutFailed, Sink};
use tk_journal::Noted;

/// Why not all lines were written.
#[derive(Clone, Copy, Debug, PartialEq, Eq)]
pub enum LineFault {
    WriteFailed,
    NoMemory,
}

impl From<NoMemory> for LineFault {
    ghost from_gives = { λ _ e. e ≡ OutOfMemory };

    fn from(_error: NoMemory) -> LineFault {
        LineFault::NoMemory
    }
}

impl From<PutFailed> for LineFault {
    ghost from_gives = { λ _ e. e ≡ NotWritten };

    fn from(_error: PutFailed) -> LineFault {
        LineFault::WriteFailed
    }
}

/// How far the lines of a journal are written: the entries that were passed, and whether one of them is a retune.
#[derive(Clone, Copy, Debug, PartialEq, Eq)]
pub struct Lines {
    pub passed: usize,
    pub tuned: bool,
}

impl Lines {
    /// No entry was passed.
    pub fn new() -> Lines
        ensures { result ≡ record { passed = 0; tuned = false } }
    {
        Lines {
            passed: 0,
            tuned: false,
        }
    }

    /// Passes one entry, and writes its line where it is a publication.
    fn pass<O: Sink>(
        &mut self,
        alloc: Global,
        entry: &Noted,
        names: &Catalog,
        out: &mut O,
    ) -> Result<(), LineFault>
        requires room { self.old.passed < 2 ^ 64 - 1 }
        requires named { AreNamed (length names.now) entry.now }
        ensures ok { OnOk result (self.new ≡ passing entry.now self.old) }
        ensures err { OnErr result (self.new ≡ self.old) }
        ensures written { OnOk result (Grows (O.written out.old) (O.written out.new) (line_of names.now self.old entry.now)) }
        ensures memory { IsErrOf result LineFault.NoMemory → O.written out.new ≡ O.written out.old }
        ensures failed { IsErrOf result LineFault.WriteFailed
            → GrowsByFront (O.written out.old) (O.written out.new) (line_of names.now self.old entry.now) }
        ensures counted { O.fault_count out.new ≡ line_faults result (O.fault_count out.old) }
    {
        match entry {
            Noted::Published(publication) => {
                out.put(&publication.get().line(alloc, names, self.tuned)?)?;
            }
            Noted::Tuned(..) => self.tuned = true,
            Noted::Got(..) => {}
            Noted::Sent(..) => {}
        }
        self.passed += 1;
        Ok(())
    }

    /// Writes the lines of the publications that were not passed yet, each by one put. It takes time in proportion to
    /// the entries that were not passed, and can go on after it found no memory.
    pub fn write<O: Sink>(
        &mut self,
        alloc: Global,
        journal: &[Noted],
        names: &Catalog,
        out: &mut O,
    ) -> Result<(), LineFault>
        requires at { IsAt journal.now self.old }
        requires named { All (AreNamed (length names.now)) journal.now }
        ensures at { IsAt journal.now self.new }
        ensures forward { self.old.passed ≤ self.new.passed }
        ensures all { OnOk result (self.new.passed ≡ length journal.now) }
        // Without a fault of writing, the lines of those publications are written that were passed since.
        ensures ok { OnOk result (WritesLines names.now journal.now self.old self.new (O.written out.old) (O.written out.new)) }
        ensures memory { IsErrOf result LineFault.NoMemory
            → WritesLines names.now journal.now self.old self.new (O.written out.old) (O.written out.new) }
        // With one, a front of the next line may stand behind them.
        ensures cut { IsErrOf result LineFault.WriteFailed
            → CutsLine names.now journal.now self.old self.new (O.written out.old) (O.written out.new) }
        ensures failed { IsErrOf result LineFault.WriteFailed → HasRisen (O.fault_count out.old) (O.fault_count out.new) }
        ensures counted { O.fault_count out.new ≡ line_faults result (O.fault_count out.old) }
    {
        while self.passed < journal.len() {
            self.pass(alloc, &journal[self.passed], names, out)?;
        }
        Ok(())
    }
}
