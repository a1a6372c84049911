//! A text of several stories.

ghost use Rattle.std.specs.Prelude.{◌≡◌, ◌++◌, OnErr, OnOk, length};
ghost use Rattle.tk_input.specs.Sink.{Grows, GrowsByFront};
ghost use Rattle.tk_ledger.specs.Printing.{print_faults};
ghost use Rattle.tk_ledger.specs.Text.{text_of};

use std::alloc::Global;
use tk_input::{Catalog, Sink};
use tk_ledger::{PrintFault, print};
use tk_story::Story;

/// Writes a title and the text of a story behind it.
pub fn print_titled<O: Sink>(
    alloc: Global,
    title: &[u8],
    story: &Story,
    names: &Catalog,
    out: &mut O,
) -> Result<(), PrintFault>
    requires { length names.now ≡ story.now.story.settings.objects }
    ensures ok { OnOk result (Grows (O.written out.old) (O.written out.new) (title.now ++ text_of names.now story.now.story)) }
    ensures err { OnErr result (GrowsByFront (O.written out.old) (O.written out.new)
        (title.now ++ text_of names.now story.now.story)) }
    ensures counted { O.fault_count out.new ≡ print_faults result (O.fault_count out.old) }
{
    out.put(title)?;
    print(alloc, story, names, out)
}
