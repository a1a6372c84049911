//! What holds of chunks.

ghost use Rattle.tk_net.specs.Laws.{ChunksAreReadBack};

/// A chunk is read as it was written, whatever comes behind it.
pub fn chunks_are_read_back()
    ensures { ChunksAreReadBack }
{}
