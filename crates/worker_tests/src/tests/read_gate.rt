//! A gate that stops a worker before a read.

use worker::{Gate, Point};

/// A gate that lets its worker read so many times, and then says no.
#[derive(Drop)]
pub struct ReadGate {
    most: u32,
    /// How often it was asked before a read.
    pub asked: u32,
    /// How often it said no.
    pub stops: u64,
}

impl ReadGate {
    /// One for this many reads.
    pub fn new(most: u32) -> ReadGate {
        ReadGate {
            most,
            asked: 0,
            stops: 0,
        }
    }
}

impl Gate for ReadGate {
    ghost stops = { λ g. g.stops };

    fn pass(&mut self, at: Point) -> bool {
        if at == Point::Read {
            self.asked = self.asked.saturating_add(1);
        }
        let passes = self.asked <= self.most;
        if !passes {
            self.stops = self.stops.saturating_add(1);
        }
        passes
    }
}
