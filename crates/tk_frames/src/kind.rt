//! The kinds of frames, with their bytes and their names.

ghost use Rattle.std.specs.Prelude.{◌≡◌};
ghost use Rattle.tk_frames.specs.Spelling.{code_of};

use std::fmt;

/// What a frame is for.
#[derive(Clone, Copy, Debug, PartialEq, Eq, Hash)]
pub enum Kind {
    Hello,
    Report,
    Collect,
    Values,
    Assign,
    Settled,
    Stop,
}

impl Kind {
    /// The byte with which a payload of this kind begins.
    pub fn code(self) -> u8
        ensures { result ≡ code_of self }
    {
        match self {
            Kind::Hello => 1,
            Kind::Report => 2,
            Kind::Collect => 3,
            Kind::Values => 4,
            Kind::Assign => 5,
            Kind::Settled => 6,
            Kind::Stop => 7,
        }
    }
}

impl fmt::Display for Kind {
    fn fmt<W: fmt::Write>(&self, f: &mut fmt::Formatter<W>) -> fmt::Result {
        f.write_str(match self {
            Kind::Hello => "hello",
            Kind::Report => "report",
            Kind::Collect => "collect",
            Kind::Values => "values",
            Kind::Assign => "assign",
            Kind::Settled => "settled",
            Kind::Stop => "stop",
        })
    }
}
