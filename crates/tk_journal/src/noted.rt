//! What a journal is a list of, with the pointers that keep each entry small.

ghost use Rattle.std.specs.Prelude.{◌≡◌, IfOk, IfErr};

use crate::publication::Publication;
use std::alloc::Global;
use std::marker::Model;
use tk_base::{Mon, NoMemory};
use tk_frames::KeptFrame;

/// One entry of a journal, in 16 bytes.
#[derive(Debug, Drop)]
pub enum Noted {
    /// The coordinator took a frame of this monitor.
    Got(Mon, KeptFrame),
    /// The coordinator sent a frame to this monitor.
    Sent(Mon, KeptFrame),
    /// A set of members that holds at its cut.
    Published(KeptPublication),
    /// The coordinator was asked for another k and epsilon, which hold from the end of the round that follows.
    Tuned(u32, KeptEpsilon),
}

/// A publication behind a pointer, so that an entry which keeps one is small. Contracts see the publication.
#[derive(Debug, Drop)]
pub struct KeptPublication {
    publication: Box<Publication>,
}

impl Model for KeptPublication {
    ghost use Rattle.tk_journal.specs.declared.publication.Publication.{Publication};

    ghost Value = { Publication };

    ghost view = { λ k. k.publication.value };
}

impl KeptPublication {
    /// Takes the room for one publication, and hands it back where there is none.
    pub fn new(alloc: Global, publication: Publication) -> Result<KeptPublication, Publication>
        ensures ok { IfOk result (λ k. k ≡ publication) }
        ensures err { IfErr result (λ p. p ≡ publication) }
    {
        match Box::new(alloc, publication) {
            Ok(publication) => Ok(KeptPublication { publication }),
            Err(failed) => Err(failed.value),
        }
    }

    /// The publication, lent.
    pub fn get(&self) -> &Publication
        ensures { result.now ≡ self.now }
    {
        &self.publication
    }
}

/// An epsilon behind a pointer, so that an entry which keeps one is small. Contracts see the number.
#[derive(Debug, Drop)]
pub struct KeptEpsilon {
    epsilon: Box<i128>,
}

impl Model for KeptEpsilon {
    ghost use Rattle.std.specs.Prelude.{ℤ};

    ghost Value = { ℤ };

    ghost view = { λ k. k.epsilon.value };
}

impl KeptEpsilon {
    /// Takes the room for one epsilon.
    pub fn new(alloc: Global, epsilon: i128) -> Result<KeptEpsilon, NoMemory>
        ensures { IfOk result (λ k. k ≡ epsilon) }
    {
        match Box::new(alloc, epsilon) {
            Ok(epsilon) => Ok(KeptEpsilon { epsilon }),
            Err(_) => Err(NoMemory),
        }
    }

    /// The epsilon.
    pub fn get(&self) -> i128
        ensures { result ≡ self.now }
    {
        *self.epsilon
    }
}
