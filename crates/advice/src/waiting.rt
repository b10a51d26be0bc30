//! Which streams of a run waited too long.

ghost use Rattle.std.specs.Prelude.{◌≡◌, ◌≤◌, ◌↔◌, IsTrue};
ghost use Rattle.advice.specs.Waiting.{late_by_of};

/// The ticks of 27 MHz of a millisecond.
const MILLISECOND: u64 = 27_000;

/// The largest delay that is taken for granted, in ticks of 27 MHz: a second.
const GRANTED: u64 = 27_000_000;

/// A largest delay, in ticks of 27 MHz, that is above a second: in milliseconds, rounded up. None where it isn't above.
pub fn late_by(delay: u64) -> Option<u64>
    ensures { result ≡ late_by_of delay }
{
    if delay > GRANTED {
        Some(delay.div_ceil(MILLISECOND))
    } else {
        None
    }
}

/// Whether a queue that holds so many packets came to hold them all, where so many waited in it at most.
pub fn is_filled(queued: u64, capacity: usize) -> bool
    ensures { IsTrue result ↔ (capacity ≤ queued) }
{
    capacity as u64 <= queued
}
