// A number at a node of a tree, or none, in the room of the number alone.
ghost use Rattle.std.specs.Prelude.{◌≡◌, ◌↔◌, ℤ, IsTrue, Option, None};
ghost use Rattle.tk_rank.specs.Tree.{greater as greater_of, is_over as is_over_of};

/// A number, or none.
pub(crate) trait Node: Copy {
    /// What it stands for.
    ghost number: { Self → Option ℤ };

    /// No number.
    fn none() -> Self
        ensures { number result ≡ None };

    /// The number, if there is one.
    fn get(self) -> Option<i128>
        ensures { result ≡ number self };

    /// Whether both are the same.
    fn is_same(self, other: Self) -> bool
        ensures { IsTrue result ↔ (number self ≡ number other) };

    /// The greater of two, where none is less than any number.
    fn greater(self, other: Self) -> Self
        ensures { number result ≡ greater_of (number self) (number other) };

    /// Whether there is a number and it is above a level.
    fn is_over(self, level: i128) -> bool
        ensures { result ≡ is_over_of level (number self) };
}
