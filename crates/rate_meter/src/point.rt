//! Points of a line.

/// A point of a clock's line: so many bytes and ticks of 27 MHz behind its first point.
#[derive(Clone, Copy)]
pub struct Point {
    pub bytes: u64,
    pub ticks: u64,
}
