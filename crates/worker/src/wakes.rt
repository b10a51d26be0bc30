//! What a worker is woken by, and whom it wakes.

use waking::{Sleeper, Waker};

/// The change that ends a worker's wait: a place in its ring, or the end of the run.
pub const PLACE: u64 = 1;

/// What a worker is woken by where it waits for a place in its ring, and what wakes whoever takes its packets. The worker wakes that one
/// behind each packet that it sent, and behind the end mark.
#[derive(Drop)]
pub struct Wakes {
    /// The worker, of which others have wakers of `PLACE`.
    pub sleeper: Sleeper,
    /// Whoever takes its packets.
    pub taker: Waker,
}
