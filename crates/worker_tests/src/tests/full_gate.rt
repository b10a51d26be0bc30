//! A gate that stops a worker at a full ring.

use worker::{Gate, Point};

/// A gate that lets its worker wait so many times at a full ring, and then says no.
#[derive(Drop)]
pub struct FullGate {
    most: u32,
    /// How often the ring was found full.
    pub full: u32,
    /// How often it said no.
    pub stops: u64,
}

impl FullGate {
    /// One for this many waits.
    pub fn new(most: u32) -> FullGate {
        FullGate {
            most,
            full: 0,
            stops: 0,
        }
    }
}

impl Gate for FullGate {
    ghost stops = { λ g. g.stops };

    fn pass(&mut self, at: Point) -> bool {
        if at == Point::Full {
            self.full = self.full.saturating_add(1);
        }
        let passes = self.full <= self.most;
        if !passes {
            self.stops = self.stops.saturating_add(1);
        }
        passes
    }
}
