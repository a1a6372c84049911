//! Whether a monitor has room for a record more.

ghost use Rattle.std.specs.Prelude.{◌≡◌, ◌+◌, ◌^◌, ◌<◌, ◌≤◌, ◌&&◌, true, nat_lt, not};
ghost use Rattle.tk_watch.specs.Told.{has_room};

/// The most changes that a part may have.
const MOST_CHANGES: usize = 1_000_000;

/// The most that the sizes of all changes may sum to: 2^100.
const MOST_WEIGHT: u128 = 1_267_650_600_228_229_401_496_703_205_376;

/// Whether sizes of such a sum leave no room for one more.
pub(crate) fn is_heavy(weight: u128, size: u128) -> bool
    requires { weight ≤ 2 ^ 100 }
    ensures { result ≡ nat_lt (2 ^ 100) (weight + size) }
{
    size > MOST_WEIGHT - weight
}

/// Whether a part of such a length, and sizes of such a sum, leave room for one more.
pub(crate) fn has_room_for(length: usize, weight: u128, size: u128) -> bool
    requires { weight ≤ 2 ^ 100 }
    ensures { result ≡ has_room length weight size }
{
    length < MOST_CHANGES && !is_heavy(weight, size)
}
