//! How fast a run goes, and how long it still takes.

ghost use Rattle.std.specs.Prelude.{◌≡◌, ◌≤◌, min};
ghost use Rattle.live.specs.Pace.{speed_of, time_left_of};

/// The number, or 2^64 - 1 where it is greater.
fn at_most(number: u128) -> u64
    ensures { result ≡ min number 18446744073709551615 }
{
    number.min(u128::from(u64::MAX)) as u64
}

/// How many times as fast as it is shown a multiplex is made, in tenths, rounded down and at most 2^64 - 1: it is so far after so long, both
/// in milliseconds.
pub(crate) fn speed(time: u64, elapsed: u64) -> u64
    ensures { 1 ≤ elapsed → result ≡ min (speed_of time elapsed) 18446744073709551615 }
{
    if elapsed == 0 {
        return 0;
    }
    at_most(u128::from(time) * 10 / u128::from(elapsed))
}

/// How long a multiplex still takes to its end at the speed that it had, in milliseconds, rounded down and at most 2^64 - 1: it is so far
/// after so long, and ends then.
pub(crate) fn time_left(time: u64, end: u64, elapsed: u64) -> u64
    ensures { 1 ≤ time → result ≡ min (time_left_of time end elapsed) 18446744073709551615 }
{
    if time == 0 {
        return 0;
    }
    let rest = end.saturating_sub(time);
    at_most(u128::from(elapsed) * u128::from(rest) / u128::from(time))
}
