/// Whether an event took place.
#[derive(Clone, Copy, Debug, PartialEq, Eq)]
pub enum Moved {
    /// It took place, and is kept.
    Yes,
    /// It was not enabled, and nothing changed.
    Idle,
}
