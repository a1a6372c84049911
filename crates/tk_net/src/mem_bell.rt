use std::alloc::Global;
use std::sync::Arc;
use std::sync::atomic::{AtomicBool, Ordering};
use tk_wire::Bell;

/// Wakes the one who waits in the rest that it was made with.
#[derive(Drop)]
pub struct MemBell {
    pub(crate) rung: Arc<AtomicBool, Global>,
}

impl Bell for MemBell {
    fn ring(&self) {
        self.rung.store(true, Ordering::SeqCst);
    }
}
