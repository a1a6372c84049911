//! The lines of an order with restarts: events, and the restarts between them.

use tk_input::Event;

/// What a line of an order of sessions is.
#[derive(Debug, Drop)]
pub enum SessionLine {
    /// The next event, if it is enabled where it stands.
    Step(Event),
    /// The coordinator restarts, and a new session begins.
    Restart,
}
