//! The clock of a PID.

ghost use Rattle.std.specs.Prelude.{◌≡◌, ◌%◌, ◌^◌, ◌<◌, Some, None, IfSome, IsTrue};
ghost use Rattle.rate_meter.specs.Line.{has_room};
ghost use Rattle.rate_meter.specs.Readings.{elapsed as ticks_from, if_room as point_if_room, is_splice as is_spliced, point_of};

use crate::line::Line;
use crate::pace::Pace;
use crate::point::Point;
use crate::reading::Reading;
use past::Past;
use std::marker::Model;
use tspkt::PCR_MODULUS;

/// The most ticks of 27 MHz from one PCR to the next that aren't a splice: those of a second.
const LONGEST_STEP: u64 = 27_000_000;

/// The clock of a PID: the readings of its PCRs, of which a line is kept. Contracts see the list of all readings, newest
/// first.
#[derive(Drop)]
pub struct Clock {
    past: Past<Reading>,
    last: Option<Reading>,
    line: Line,
}

impl Model for Clock {
    ghost use Rattle.std.specs.Prelude.{List, ◌≡◌, slice_get};
    ghost use Rattle.rate_meter.specs.declared.reading.Reading.{Reading as ClockReading};
    ghost use Rattle.rate_meter.specs.Readings.{points_of};

    ghost Value = { List ClockReading };

    ghost view = { λ c. c.past };

    ghost invariant = { λ c. (c.last ≡ slice_get c.past 0) × (c.line ≡ points_of c.past) };
}

/// How many ticks of 27 MHz it is from one PCR to a later one, below 2^42.
pub fn elapsed(before: u64, now: u64) -> u64
    ensures value { result ≡ ticks_from before now }
    ensures fits { result < 2 ^ 42 }
{
    (now % PCR_MODULUS + PCR_MODULUS - before % PCR_MODULUS) % PCR_MODULUS
}

/// Whether the clock was set anew between two neighbours: there is a discontinuity indicator (ISO/IEC 13818-1, 2.4.3.5), or they are more
/// than a second apart.
pub fn is_splice(before: Reading, now: Reading) -> bool
    ensures { result ≡ is_spliced before now }
{
    now.is_discontinuous || LONGEST_STEP < elapsed(before.pcr, now.pcr)
}

/// A point, if a line has room for it.
fn if_room(line: &Line, point: Point) -> Option<Point>
    ensures value { result ≡ point_if_room line.now point }
    ensures room { IfSome result (λ p. IsTrue (has_room line.now p)) }
{
    if line.has_room(point) {
        Some(point)
    } else {
        None
    }
}

/// The point of a reading in a line, where this one was the last before it.
fn next_point(last: Option<Reading>, now: Reading, line: &Line) -> Option<Point>
    ensures value { result ≡ point_of last now line.now }
    ensures room { IfSome result (λ p. IsTrue (has_room line.now p)) }
{
    let Some(before) = last else {
        return if_room(line, Point { bytes: 0, ticks: 0 });
    };
    if is_splice(before, now) {
        return None;
    }
    let newest = line.newest();
    let step = now.position.saturating_sub(before.position);
    let bytes = newest.bytes.saturating_add(step);
    let ticks = newest.ticks.saturating_add(elapsed(before.pcr, now.pcr));
    if_room(line, Point { bytes, ticks })
}

impl Clock {
    ghost use Rattle.std.specs.Prelude.{◌≡◌, ◌∷◌, [], length};
    ghost use Rattle.rate_meter.specs.Line.{rate_of};
    ghost use Rattle.rate_meter.specs.Pace.{pace_of};
    ghost use Rattle.rate_meter.specs.Readings.{points_of};

    /// A clock of which nothing was read.
    pub fn new() -> Clock
        ensures { result ≡ [] }
    {
        Clock {
            past: Past::new(),
            last: None,
            line: Line::new(),
        }
    }

    /// Adds the next reading.
    pub fn add(&mut self, now: Reading)
        ensures { self.new ≡ now ∷ self.old }
    {
        if let Some(point) = next_point(self.last, now, &self.line) {
            self.line.add(point);
        }
        self.last = Some(now);
        self.past.add(now);
    }

    /// How many points its line has.
    pub fn count(&self) -> u64
        ensures { result ≡ length (points_of self.now) }
    {
        self.line.count()
    }

    /// The rate of the stream by this clock, in bits a second, rounded to the nearest; none of fewer than two readings without
    /// a splice between, and where no time goes by.
    pub fn rate(&self) -> Option<u64>
        ensures { result ≡ rate_of (points_of self.now) }
    {
        self.line.rate()
    }

    /// The rates of its seconds.
    pub fn pace(&self) -> Pace
        ensures { result ≡ pace_of (points_of self.now) }
    {
        self.line.pace()
    }
}
