//! Why a connection was left, and the word that a line has for it.

ghost use Rattle.std.specs.Prelude.{◌≡◌, codes};
ghost use Rattle.tk_watch.specs.Leaving.{word_of};

/// Why a connection was left.
#[derive(Clone, Copy, Debug, PartialEq, Eq)]
pub enum Cause {
    /// The link failed or ended.
    Link,
    /// A frame was refused.
    Refused,
    /// What came was no frame.
    Bad,
    /// There was no room for a record more, or the frames of the trail have too many bytes together.
    Full,
    /// There was no memory.
    Memory,
}

impl Cause {
    /// The word that a line has for it.
    pub(crate) fn word(self) -> &'static [u8]
        ensures { result.now ≡ word_of self }
    {
        match self {
            Cause::Link => b"link",
            Cause::Refused => b"refused",
            Cause::Bad => b"bad",
            Cause::Full => b"full",
            Cause::Memory => b"memory",
        }
    }
}
