//! The time of the slots, kept from slot to slot.

ghost use Rattle.std.specs.Prelude.{◌≡◌, ◌+◌, ◌*◌, ◌<◌, ◌≤◌};
ghost use Rattle.tspkt.specs.Stamps.{time_of};
ghost use Rattle.mux.specs.SlotClock.{clock_at, advanced};

use crate::mux::MAX_SLOTS;
use request::{MAX_RATE, MIN_RATE};
use std::marker::Model;

/// The time of a slot, and the step to the next: whole ticks of 27 MHz, and what is left over by rounding down, in
/// parts of a tick, of which a tick has `rate`. So no slot needs a division, and no number overflows up to slot 2^40.
#[derive(Drop)]
pub(crate) struct SlotClock {
    rate: u64,
    slot: u64,
    time: u64,
    rest: u64,
    step: u64,
    step_rest: u64,
}

impl Model for SlotClock {
    ghost use Rattle.mux.specs.SlotClock.{ClockValue, clock_at, KeepsTime};

    ghost Value = { ClockValue };

    ghost view = { λ c. clock_at c.rate c.slot };

    ghost invariant = { λ c. KeepsTime c.rate c.slot c.time c.rest c.step c.step_rest };
}

impl SlotClock {
    /// A clock that stands at slot 0 of a multiplex of this rate, in bits a second.
    pub fn new(rate: u64) -> SlotClock
        requires from { MIN_RATE ≤ rate }
        requires within { rate ≤ MAX_RATE }
        ensures { result ≡ clock_at rate 0 }
    {
        // How many parts of a tick ten bytes take, and a slot.
        let start = 10 * 216_000_000;
        let length = 188 * 216_000_000;
        SlotClock {
            rate,
            slot: 0,
            time: start / rate,
            rest: start % rate,
            step: length / rate,
            step_rest: length % rate,
        }
    }

    /// The number of the slot.
    pub fn slot(&self) -> u64
        ensures { result ≡ self.now.slot }
    {
        self.slot
    }

    /// When the slot goes out: the time of its byte 10, in which a PCR's base ends, in ticks of 27 MHz.
    pub fn time(&self) -> u64
        ensures { result ≡ time_of (188 * self.now.slot + 10) self.now.rate }
    {
        self.time
    }

    /// Goes on to the next slot.
    pub fn advance(&mut self)
        requires { self.old.slot < MAX_SLOTS }
        ensures { self.new ≡ advanced self.old }
    {
        self.slot += 1;
        self.time += self.step;
        self.rest += self.step_rest;
        // Whether the rests make a tick is as good as random: it is counted by values, and not by a branch.
        let is_tick = self.rate <= self.rest;
        self.time += u64::from(is_tick);
        self.rest = if is_tick {
            self.rest - self.rate
        } else {
            self.rest
        };
    }
}
