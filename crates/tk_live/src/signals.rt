//! The flags that keep the threads of a live run from waiting for one that ended early or never began.

use tk_serve::Alarm;

/// What the threads of a live run tell each other beside the protocol.
#[derive(Drop)]
pub struct Signals {
    /// A worker ended before Stop, so the hub need not wait.
    pub alarm: Alarm,
    /// No thread could be made for a worker, so none need begin.
    pub idle: Alarm,
}

impl Signals {
    /// None is raised.
    pub fn new() -> Signals {
        Signals {
            alarm: Alarm::new(),
            idle: Alarm::new(),
        }
    }

    /// No thread could be made for a worker: none need begin, and the hub need not wait.
    pub fn call_off(&self) {
        self.idle.raise();
        self.alarm.raise();
    }
}
