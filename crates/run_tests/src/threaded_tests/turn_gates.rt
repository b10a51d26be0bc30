//! Gates that hold their inputs back, so that the threads of a run come in other turns.

use rand_core::utils::NextWord;
use rand_pcg::Pcg32;
use std::thread;
use worker::{Gate, Point};

/// Lets other threads go first, so often.
fn yield_often(turns: u32) {
    for _ in 0..turns {
        thread::yield_now();
    }
}

/// A gate that lets other threads go first at each of its points, as often each time. It never says no.
#[derive(Drop)]
pub struct TurnsGate {
    pub turns: u32,
}

impl Gate for TurnsGate {
    ghost stops = { λ g. 0 };

    fn pass(&mut self, _at: Point) -> bool {
        yield_often(self.turns);
        true
    }
}

/// A gate that lets other threads go first at each of its points, from 0 to 7 times: the next number of a generator. It never says no.
#[derive(Drop)]
pub struct RandomGate {
    generator: Pcg32,
}

impl RandomGate {
    /// One whose generator starts with this state and stream.
    pub fn new(state: u64, stream: u64) -> RandomGate {
        RandomGate {
            generator: Pcg32::new(state, stream),
        }
    }
}

impl Gate for RandomGate {
    ghost stops = { λ g. 0 };

    fn pass(&mut self, _at: Point) -> bool {
        yield_often(self.generator.next_word() % 8);
        true
    }
}
