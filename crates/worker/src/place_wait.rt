//! How a worker waits for a place in its ring.

use crate::waiting::pause;
use crate::wakes::{PLACE, Wakes};
use std::sync::Wait;
use std::time::{Clock, Duration};

/// How long a worker sleeps at once, at most, in milliseconds: its gate is asked at least so often, and it looks for a place at least so
/// often, since it isn't told of each.
const LONGEST_SLEEP: u64 = 8;

/// How a worker waits for a place in its ring: it is woken, or sleeps for a moment at a time.
#[derive(Drop)]
pub(crate) struct PlaceWait {
    wakes: Option<Wakes>,
}

impl PlaceWait {
    /// It sleeps for a moment at a time.
    pub fn asleep() -> PlaceWait {
        PlaceWait { wakes: None }
    }

    /// It is woken.
    pub fn woken(wakes: Wakes) -> PlaceWait {
        PlaceWait { wakes: Some(wakes) }
    }

    /// Waits behind a look that found no place, at most for as long as it sleeps at once.
    pub fn waits<T: Wait + Clock>(&mut self, rt: &T) {
        match &mut self.wakes {
            Some(wakes) => {
                let limit = Duration::from_millis(LONGEST_SLEEP);
                let _rest = wakes.sleeper.wait(rt, PLACE, Some(limit));
            }
            None => pause(rt),
        }
    }

    /// It no longer waits: what had to go into the ring is in it, or never goes. Whoever takes the packets is woken.
    #[inline(always)]
    pub fn ends(&mut self) {
        if let Some(wakes) = &mut self.wakes {
            wakes.sleeper.found();
            wakes.taker.wake();
        }
    }
}
