//! What a sleeper shares with its wakers.

use std::sync::atomic::AtomicU64;
use std::thread::Parker;

/// What a sleeper shares with its wakers.
#[derive(Drop)]
pub(crate) struct Bell {
    /// Which changes it waits for, one a bit. None where it doesn't wait.
    pub awaited: AtomicU64,
    /// The token that ends its sleep.
    pub parker: Parker,
}
