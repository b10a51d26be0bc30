//! Waiting for another thread.

use std::time::Clock;
use waking::nap;

/// Sleeps for a moment, which nobody ends, so that a full ring costs no core.
pub fn pause(clock: &impl Clock) {
    nap(clock);
}
