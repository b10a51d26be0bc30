//! How steady a rate is.

ghost use Rattle.std.specs.Prelude.{◌≡◌, ◌-◌, ◌^◌, ◌≤◌};
ghost use Rattle.rate_meter.specs.Line.{bits_a_second as rate_said};
ghost use Rattle.rate_meter.specs.Pace.{first_pace, paced, is_variable as is_variable_pace, rate_between as rate_from};

use crate::point::Point;

/// The ticks of 27 MHz of a second.
const SECOND: u64 = 27_000_000;

/// The rates of the seconds of a line.
#[derive(Clone, Copy)]
pub struct Pace {
    /// Where the second that isn't over yet started.
    pub start: Point,
    /// The lowest rate of a second, in bits a second; 2^64 - 1 where none is over.
    pub slowest: u64,
    /// The highest.
    pub fastest: u64,
}

/// So many bytes in so many ticks of 27 MHz, above 0, as bits a second, rounded to the nearest.
pub(crate) fn bits_a_second(bytes: u128, ticks: u128) -> u64
    requires bytes { bytes ≤ 2 ^ 98 }
    requires some { 1 ≤ ticks }
    requires ticks { ticks ≤ 2 ^ 106 }
    ensures { result ≡ rate_said bytes ticks }
{
    let rate = (216_000_000 * bytes + ticks / 2) / ticks;
    rate.min(u128::from(u64::MAX)) as u64
}

/// The rate from one point to a later one.
fn rate_between(start: Point, point: Point) -> u64
    requires { 1 ≤ point.ticks - start.ticks }
    ensures { result ≡ rate_from start point }
{
    let bytes = point.bytes.saturating_sub(start.bytes);
    let ticks = point.ticks.saturating_sub(start.ticks);
    bits_a_second(u128::from(bytes), u128::from(ticks))
}

impl Pace {
    /// That of a line without points.
    pub(crate) fn new() -> Pace
        ensures { result ≡ first_pace }
    {
        Pace {
            start: Point { bytes: 0, ticks: 0 },
            slowest: u64::MAX,
            fastest: 0,
        }
    }

    /// The pace with one more point of the line.
    pub(crate) fn with(self, point: Point) -> Pace
        ensures { result ≡ paced point self }
    {
        if point.ticks.saturating_sub(self.start.ticks) < SECOND {
            return self;
        }
        let rate = rate_between(self.start, point);
        Pace {
            start: point,
            slowest: self.slowest.min(rate),
            fastest: self.fastest.max(rate),
        }
    }

    /// Whether the rate is variable: its fastest second is more than 1 per cent above its slowest.
    pub fn is_variable(self) -> bool
        ensures { result ≡ is_variable_pace self }
    {
        101 * u128::from(self.slowest) < 100 * u128::from(self.fastest)
    }
}
