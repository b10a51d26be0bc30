//! What wakes a sleeper.

use crate::bell::Bell;
use std::alloc::Global;
use std::sync::Arc;
use std::sync::atomic::Ordering;

/// Wakes a sleeper where it waits for such a change as this waker tells of.
#[derive(Drop)]
pub struct Waker {
    pub(crate) bell: Arc<Bell, Global>,
    pub(crate) changes: u64,
}

impl Waker {
    /// Ends the sleeper's wait for such a change, if it waits for one. It is called behind the change.
    #[inline(always)]
    pub fn wake(&self) {
        if self.bell.awaited.load(Ordering::SeqCst) & self.changes != 0 {
            self.give_token();
        }
    }

    /// Takes back what the sleeper told, and gives the token, unless another waker did.
    #[inline(never)]
    fn give_token(&self) {
        if self.bell.awaited.swap(0, Ordering::SeqCst) != 0 {
            self.bell.parker.unpark();
        }
    }
}
