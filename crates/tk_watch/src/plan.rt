//! How a monitor's process goes on.

/// The window over the streams of a monitor.
#[derive(Clone, Copy, Debug, PartialEq, Eq)]
pub struct Window {
    /// How many ticks it sums, beside the one that runs.
    pub width: u64,
    /// How many seconds of the machine's clock a tick takes, where no lines of the streams end ticks.
    pub tick: Option<u64>,
}

/// How a monitor's process keeps its connections, and the window over its streams.
#[derive(Clone, Copy, Debug, PartialEq, Eq)]
pub struct Plan {
    /// How many milliseconds pass before it dials again.
    pub pause: u64,
    /// After how many dials in a row that nobody answered it ends, if it ever does.
    pub tries: Option<u64>,
    pub window: Option<Window>,
}
