//! A short sleep that nobody ends.

use std::thread;
use std::time::{Clock, Duration};

/// How long a nap takes, in microseconds.
const NAP: u64 = 50;

/// Sleeps for a moment, which nobody ends.
pub fn nap(clock: &impl Clock) {
    thread::sleep(clock, Duration::from_micros(NAP));
}
