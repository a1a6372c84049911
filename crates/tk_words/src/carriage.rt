ghost use Rattle.std.specs.Prelude.{◌≡◌, ◌≤◌, ◌⊎◌, Some, None, IfSome, codes, option_map};
ghost use Rattle.clap.specs.Words.{found_of, rows_of};
ghost use Rattle.tk_words.specs.Asked.{IsCarriage, asked_carriage};
ghost use Rattle.tk_words.specs.Forms.{piece_in, version_in};
ghost use Rattle.tk_words.specs.Words.{carriage_of, optional};

use crate::forms::{piece_length, version};
use crate::parsing::value;
use clap::ArgMatches;

/// How frames go between the coordinator and its monitors. No run says anything else for it.
#[derive(Clone, Copy, Debug, PartialEq, Eq)]
pub struct Carriage {
    /// How many bytes move at a time at most, 1 to 65,536.
    pub piece: u64,
    /// The version of the frames behind the Hellos, 1 or 2.
    pub frames: u8,
}

impl Carriage {
    /// Pieces of 4,096 bytes, and version 1.
    pub const USUAL: Carriage = Carriage {
        piece: 4_096,
        frames: 1,
    };
}

/// The optional length of a piece, 4,096 where there is none.
fn piece(matches: &ArgMatches<'_>) -> Option<u64>
    ensures value { result ≡ optional piece_in (codes "piece") 4096 (rows_of (found_of matches.now)) }
    ensures range { IfSome result (λ n. (1 ≤ n) × (n ≤ 65536)) }
{
    match value(matches, "piece") {
        None => Some(Carriage::USUAL.piece),
        Some(text) => piece_length(text),
    }
}

/// The optional version of the frames, 1 where there is none.
pub fn frames(matches: &ArgMatches<'_>) -> Option<u8>
    ensures value { result ≡ optional version_in (codes "frames") 1 (rows_of (found_of matches.now)) }
    ensures version { IfSome result (λ v. (v ≡ 1) ⊎ (v ≡ 2)) }
{
    match value(matches, "frames") {
        None => Some(Carriage::USUAL.frames),
        Some(text) => version(text),
    }
}

/// The length of a piece and the version of the frames, each the usual one where it is left out.
pub fn carriage_in(matches: &ArgMatches<'_>) -> Option<Carriage>
    ensures value { option_map asked_carriage result ≡ carriage_of (rows_of (found_of matches.now)) }
    ensures range { IfSome result IsCarriage }
{
    Some(Carriage {
        piece: piece(matches)?,
        frames: frames(matches)?,
    })
}
