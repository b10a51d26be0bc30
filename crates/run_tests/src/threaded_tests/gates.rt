//! Gates that a test watches.

use worker::{Gate, Point};

/// A gate that says no once so many packets went into the ring.
#[derive(Drop)]
pub struct StopGate {
    pub most: u32,
    pub offered: u32,
    pub stops: u64,
}

impl StopGate {
    /// One for this many packets.
    pub fn new(most: u32) -> StopGate {
        StopGate {
            most,
            offered: 0,
            stops: 0,
        }
    }
}

impl Gate for StopGate {
    ghost stops = { λ g. g.stops };

    fn pass(&mut self, at: Point) -> bool {
        if at == Point::Offered {
            self.offered = self.offered.saturating_add(1);
        }
        let passes = self.offered < self.most;
        if !passes {
            self.stops = self.stops.saturating_add(1);
        }
        passes
    }
}
