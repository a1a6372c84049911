use tk_base::Mon;

/// Why a session ended in front of its final set.
#[derive(Clone, Copy, Debug, PartialEq, Eq)]
pub enum Cause {
    /// The link of this monitor failed or ended.
    Link(Mon),
    /// A frame of this monitor was refused.
    Refused(Mon),
    /// The bytes of this monitor were no frame.
    Bad(Mon),
    /// This monitor had joined, and greeted again on another connection.
    Again(Mon),
    /// A stand-in had taken the seat of this monitor, and it greeted.
    Back(Mon),
    /// The journal came to its end while a stand-in sat in the seat of this monitor. No stand-in tells an end.
    Early(Mon),
    /// The frames of its journal had too many bytes together.
    Full,
    /// Memory was wanted.
    Memory,
}
