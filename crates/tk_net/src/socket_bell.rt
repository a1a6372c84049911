use mio::Waker;
use tk_wire::Bell;

/// Ends the wait of the rest that it was made with.
#[derive(Drop)]
pub struct SocketBell {
    pub(crate) waker: Waker,
}

impl Bell for SocketBell {
    fn ring(&self) {
        // A wake that fails is made up for by the rest's own limit of time.
        let _ = self.waker.wake();
    }
}
