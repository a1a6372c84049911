//! The seven frames and what each of them says, with their kinds and sizes.

ghost use Rattle.std.specs.Prelude.{◌≡◌, IfOk};

use crate::kind::Kind;
use tk_base::{Mon, NoMemory, ObjSet, Pairs, Places};

/// What coordinator and monitors send to each other.
#[derive(Debug, Drop, PartialEq)]
pub enum Frame {
    /// A monitor names itself, its run and the version in which it speaks.
    Hello {
        run: u64,
        version: u8,
        mon: Mon,
    },
    /// A monitor's broken outsiders, the values of members and failed, and its border over them.
    Report {
        seq: u64,
        border: i128,
        failed: ObjSet,
        values: Pairs,
    },
    /// The coordinator asks for the values of some objects.
    Collect {
        round: u64,
        objects: ObjSet,
    },
    /// The answer to a Collect.
    Values {
        round: u64,
        seq: u64,
        border: i128,
        values: Pairs,
    },
    /// The coordinator names the members and sets factors.
    Assign {
        seq: u64,
        members: ObjSet,
        changes: Pairs,
    },
    /// A monitor where nothing is broken, its places, and whether all its parts are at their ends.
    Settled {
        seq: u64,
        last: bool,
        places: Places,
    },
    /// The coordinator has published the final set.
    Stop,
}

impl Frame {
    ghost use Rattle.tk_frames.specs.Frame.{kind_of};
    ghost use Rattle.tk_frames.specs.Size.{size_of};

    /// Its kind.
    pub fn kind(&self) -> Kind
        ensures { result ≡ kind_of self.now }
    {
        match self {
            Frame::Hello { .. } => Kind::Hello,
            Frame::Report { .. } => Kind::Report,
            Frame::Collect { .. } => Kind::Collect,
            Frame::Values { .. } => Kind::Values,
            Frame::Assign { .. } => Kind::Assign,
            Frame::Settled { .. } => Kind::Settled,
            Frame::Stop => Kind::Stop,
        }
    }

    /// How many bytes the frame takes in version 1, the four bytes of its length included.
    pub fn size(&self) -> u128
        ensures { result ≡ size_of self.now }
    {
        match self {
            Frame::Hello { .. } => 18,
            Frame::Report { failed, values, .. } => {
                37 + 4 * failed.len() as u128 + 20 * values.len() as u128
            }
            Frame::Collect { objects, .. } => 17 + 4 * objects.len() as u128,
            Frame::Values { values, .. } => 41 + 20 * values.len() as u128,
            Frame::Assign {
                members,
                changes,
                ..
            } => 21 + 4 * members.len() as u128 + 20 * changes.len() as u128,
            Frame::Settled { places, .. } => 18 + 4 * places.len() as u128,
            Frame::Stop => 5,
        }
    }

    /// The same frame once more.
    pub fn try_clone(&self) -> Result<Frame, NoMemory>
        ensures { IfOk result (λ f. f ≡ self.now) }
    {
        Ok(match self {
            Frame::Hello { run, version, mon } => Frame::Hello {
                run: *run,
                version: *version,
                mon: *mon,
            },
            Frame::Report {
                seq,
                border,
                failed,
                values,
            } => Frame::Report {
                seq: *seq,
                border: *border,
                failed: failed.try_clone()?,
                values: values.try_clone()?,
            },
            Frame::Collect { round, objects } => Frame::Collect {
                round: *round,
                objects: objects.try_clone()?,
            },
            Frame::Values {
                round,
                seq,
                border,
                values,
            } => Frame::Values {
                round: *round,
                seq: *seq,
                border: *border,
                values: values.try_clone()?,
            },
            Frame::Assign {
                seq,
                members,
                changes,
            } => Frame::Assign {
                seq: *seq,
                members: members.try_clone()?,
                changes: changes.try_clone()?,
            },
            Frame::Settled { seq, last, places } => Frame::Settled {
                seq: *seq,
                last: *last,
                places: places.try_clone()?,
            },
            Frame::Stop => Frame::Stop,
        })
    }
}
