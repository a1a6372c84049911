ghost use Rattle.std.specs.Prelude.{◌≡◌, IfOk};
ghost use Rattle.clap.specs.Words.{app_of};
ghost use Rattle.tk_words.specs.Clap.{file_app};

use crate::options::file_word;
use clap::Command;
use std::alloc::{AllocError, Global};

/// What clap reads the words of `check` by, and those of `show`.
pub fn command<'a>(alloc: Global, name: &'a str) -> Result<Command<'a>, AllocError>
    ensures { IfOk result (λ c. app_of c ≡ file_app name.entry.now) }
{
    Command::new(alloc, name).arg(file_word(alloc))
}
