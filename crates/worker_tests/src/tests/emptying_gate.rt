//! A gate that makes room in the ring of its worker.

use port::{Arrival, RingEnd};
use worker::{Gate, Point};

/// A gate that takes a packet out of the ring each time that its worker found it full so many times. It never says no.
#[derive(Drop)]
pub struct EmptyingGate {
    pub end: RingEnd,
    /// How often a packet finds the ring full.
    rounds: u32,
    /// How often the ring was found full.
    pub full: u32,
    /// How many packets came out of it.
    pub taken: u8,
    /// How many of them weren't the next one, by their continuity counters.
    pub out_of_order: u8,
}

impl EmptyingGate {
    /// One that took nothing.
    pub fn new(end: RingEnd, rounds: u32) -> EmptyingGate {
        EmptyingGate {
            end,
            rounds,
            full: 0,
            taken: 0,
            out_of_order: 0,
        }
    }
}

impl Gate for EmptyingGate {
    ghost stops = { λ g. 0 };

    fn pass(&mut self, at: Point) -> bool {
        if at == Point::Full {
            self.full = self.full.saturating_add(1);
            if self.full.checked_rem(self.rounds) == Some(0) {
                if let Some(Arrival::Packet(item)) = self.end.next() {
                    if item.packet.counter() != self.taken % 16 {
                        self.out_of_order = self.out_of_order.saturating_add(1);
                    }
                    self.taken = self.taken.saturating_add(1);
                }
            }
        }
        true
    }
}
