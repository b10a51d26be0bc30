//! The line of a clock.

use crate::pace::{Pace, bits_a_second};
use crate::point::Point;
use past::Past;
use std::marker::Model;

/// The points of a line, of which sums are kept: contracts see the list of the points, newest first.
#[derive(Drop)]
pub struct Line {
    past: Past<Point>,
    count: u64,
    bytes: u128,
    ticks: u128,
    squares: u128,
    products: u128,
    newest: Point,
    pace: Pace,
}

impl Model for Line {
    ghost use Rattle.std.specs.Prelude.{List, ◌≡◌};
    ghost use Rattle.rate_meter.specs.declared.point.Point.{Point as LinePoint};
    ghost use Rattle.rate_meter.specs.Line.{KeepsSums};
    ghost use Rattle.rate_meter.specs.Pace.{pace_of};
    ghost use Rattle.rate_meter.specs.Readings.{newest as newest_point};

    ghost Value = { List LinePoint };

    ghost view = { λ l. l.past };

    ghost invariant = { λ l. KeepsSums l.past l.count l.bytes l.ticks l.squares l.products
        × (l.newest ≡ newest_point l.past) × (l.pace ≡ pace_of l.past) };
}

impl Line {
    ghost use Rattle.std.specs.Prelude.{◌≡◌, ◌^◌, ◌≤◌, ◌∷◌, [], length, IsTrue};
    ghost use Rattle.rate_meter.specs.Line.{spread_of, along_of, rate_of, has_room};
    ghost use Rattle.rate_meter.specs.Pace.{pace_of};
    ghost use Rattle.rate_meter.specs.Readings.{newest as newest_point};

    /// A line without points.
    pub fn new() -> Line
        ensures { result ≡ [] }
    {
        Line {
            past: Past::new(),
            count: 0,
            bytes: 0,
            ticks: 0,
            squares: 0,
            products: 0,
            newest: Point { bytes: 0, ticks: 0 },
            pace: Pace::new(),
        }
    }

    /// How many points it has: at most 65,536.
    pub fn count(&self) -> u64
        ensures { result ≡ length self.now }
    {
        self.count
    }

    /// The newest point.
    pub fn newest(&self) -> Point
        ensures { result ≡ newest_point self.now }
    {
        self.newest
    }

    /// The rates of its seconds.
    pub fn pace(&self) -> Pace
        ensures { result ≡ pace_of self.now }
    {
        self.pace
    }

    /// Whether there is room for this point.
    pub fn has_room(&self, point: Point) -> bool
        ensures { result ≡ has_room self.now point }
    {
        self.count < 65_536 && point.bytes <= 8_589_934_592 && point.ticks <= 2_199_023_255_552
    }

    /// Adds a point for which there is room.
    pub fn add(&mut self, point: Point)
        requires { IsTrue (has_room self.old point) }
        ensures { self.new ≡ point ∷ self.old }
    {
        let (bytes, ticks) = (u128::from(point.bytes), u128::from(point.ticks));
        self.count += 1;
        self.bytes += bytes;
        self.ticks += ticks;
        self.squares += bytes * bytes;
        self.products += bytes * ticks;
        self.newest = point;
        self.pace = self.pace.with(point);
        self.past.add(point);
    }

    /// How far the points lie apart.
    fn spread(&self) -> u128
        ensures value { result ≡ spread_of self.now }
        ensures within { result ≤ 2 ^ 98 }
    {
        let all = u128::from(self.count) * self.squares;
        all.saturating_sub(self.bytes * self.bytes)
    }

    /// How far ticks go along with bytes.
    fn along(&self) -> u128
        ensures value { result ≡ along_of self.now }
        ensures within { result ≤ 2 ^ 106 }
    {
        let all = u128::from(self.count) * self.products;
        all.saturating_sub(self.bytes * self.ticks)
    }

    /// The rate that its slope says, in bits a second, rounded to the nearest; none of fewer than two points, and where no time
    /// goes by.
    pub fn rate(&self) -> Option<u64>
        ensures { result ≡ rate_of self.now }
    {
        let along = self.along();
        if along == 0 {
            return None;
        }
        Some(bits_a_second(self.spread(), along))
    }
}
