//! Which inputs of a run ended before others.

ghost use Rattle.std.specs.Prelude.{◌≡◌, ◌≤◌, ◌<◌, ◌+◌, ◌↔◌, IsTrue};
ghost use Rattle.advice.specs.Ends.{reached_of};

/// The ticks of 27 MHz of a millisecond.
const MILLISECOND: u64 = 27_000;

/// How much earlier than the others an input may end, in milliseconds: a second.
const GRANTED: u64 = 1_000;

/// When so many bytes of a stream have come, in milliseconds, rounded down twice and at most 2^64 - 1: its first byte comes at
/// `offset`, in ticks of 27 MHz, and its rate is so many bits a second.
pub fn reached(offset: u64, rate: u64, bytes: u64) -> u64
    ensures { 1 ≤ rate → result ≡ reached_of offset rate bytes }
{
    if rate == 0 {
        return 0;
    }
    let start = u128::from(offset / MILLISECOND);
    let end = start + u128::from(bytes) * 8_000 / u128::from(rate);
    end.min(u128::from(u64::MAX)) as u64
}

/// Whether an input that ended at the first of two times, in milliseconds, ended more than a second before the other.
pub fn is_early(end: u64, last: u64) -> bool
    ensures { IsTrue result ↔ (end + 1000 < last) }
{
    last.saturating_sub(end) > GRANTED
}
