ghost use Rattle.std.specs.Prelude.{◌<◌, length};
ghost use Rattle.tk_wire.specs.Meanings.{FitsSlice};

use tk_wire::Took;

/// What the bytes of a connection are read from. It never waits.
pub(crate) trait Source {
    /// Takes bytes to the front of a slice that is not empty.
    fn read(&mut self, into: &mut [u8]) -> Took
        requires { 0 < length into.old }
        ensures { FitsSlice result (length into.old) };
}
