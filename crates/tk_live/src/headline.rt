// What follows from how words end. Each function is there for its clause alone.
ghost use Rattle.tk_live.specs.Laws.{InputIsLived};

use tk_load::what_is_told_is_meant;

/// Where words and the contents of their files give an input, no read of these files fails, no link or net fails and the
/// output is written, the live run is done, its ends show a first difference, or no memory was found.
pub fn an_input_is_lived()
    ensures { InputIsLived }
{
    what_is_told_is_meant();
}
