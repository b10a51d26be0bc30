//! The time of the packets of a stream, kept from packet to packet.

ghost use Rattle.std.specs.Prelude.{◌≡◌, ◌+◌, ◌≤◌};
ghost use Rattle.tspkt.specs.Stamps.{time_of};

use crate::framer::MAX_LIMIT;
use crate::packet_size::PacketSize;
use std::marker::Model;

/// The lowest rate that a clock goes by, in bits a second.
pub const LOWEST_RATE: u64 = 500_000;

/// The highest rate that a clock goes by, in bits a second.
pub const HIGHEST_RATE: u64 = 100_000_000;

// Half a megabit and a hundred megabits a second.
const _: () = prove!(2 * LOWEST_RATE == 1_000_000 && HIGHEST_RATE == 100 * 1_000_000);

/// The byte of a packet at whose time the packet comes: the last one of a PCR's base.
const STAMPED_BYTE: u64 = 10;

/// How many ticks of 27 MHz a byte takes at one bit a second.
const TICKS_OF_A_BYTE: u64 = 216_000_000;

/// When the packets of a stream of constant rate come: the position of one, its time, and the step to the next. Times are
/// whole ticks of 27 MHz, and what is left over by rounding down, in parts of a tick, of which a tick has `rate`: so the time of
/// the next packet is a sum.
#[derive(Drop)]
pub struct PositionClock {
    rate: u64,
    position: u64,
    time: u64,
    rest: u64,
    stride: u64,
    step: u64,
    step_rest: u64,
}

impl Model for PositionClock {
    ghost use Rattle.tspkt.specs.PositionClock.{PositionValue, KeepsPosition};

    ghost Value = { PositionValue };

    ghost view = { λ c. record { rate = c.rate; position = c.position } };

    ghost invariant = { λ c. KeepsPosition c.rate c.position c.time c.rest c.stride c.step c.step_rest };
}

impl PositionClock {
    /// A clock that stands at the first byte of a stream of packets of 188 bytes and of this rate, 500,000 to 100,000,000 bits a
    /// second.
    pub fn new(rate: u64) -> PositionClock
        requires lowest { LOWEST_RATE ≤ rate }
        requires highest { rate ≤ HIGHEST_RATE }
        ensures { result ≡ record { rate = rate; position = 0 } }
    {
        PositionClock::with_size(PacketSize::Ts188, rate)
    }

    /// The same for packets of this size. The rate counts the bytes after packets too.
    pub fn with_size(size: PacketSize, rate: u64) -> PositionClock
        requires lowest { LOWEST_RATE ≤ rate }
        requires highest { rate ≤ HIGHEST_RATE }
        ensures { result ≡ record { rate = rate; position = 0 } }
    {
        let stride = size.stride() as u64;
        let start = STAMPED_BYTE * TICKS_OF_A_BYTE;
        let length = stride * TICKS_OF_A_BYTE;
        PositionClock {
            rate,
            position: 0,
            time: start / rate,
            rest: start % rate,
            stride,
            step: length / rate,
            step_rest: length % rate,
        }
    }

    /// The position, in bytes.
    pub fn position(&self) -> u64
        ensures { result ≡ self.now.position }
    {
        self.position
    }

    /// When the packet at the position comes: the time of its byte 10, in ticks of 27 MHz from the stream's first byte,
    /// rounded down. It is at most 60,798,594,969,506,016.
    pub fn time(&self) -> u64
        ensures value { result ≡ time_of (self.now.position + 10) self.now.rate }
        ensures within { result ≤ 60798594969506016 }
    {
        self.time
    }

    /// Goes to another position, at most 140,737,488,355,328. To the next packet it goes without a division.
    pub fn go_to(&mut self, position: u64)
        requires { position ≤ MAX_LIMIT }
        ensures { self.new ≡ record self.old { position = position } }
    {
        if position == self.position + self.stride {
            self.position = position;
            self.time += self.step;
            self.rest += self.step_rest;
            if self.rate <= self.rest {
                self.rest -= self.rate;
                self.time += 1;
            }
        } else {
            self.jump(position);
        }
    }

    /// Goes to any position. The seconds' whole bits are counted apart, so that no product is too large.
    fn jump(&mut self, position: u64)
        requires { position ≤ MAX_LIMIT }
        ensures { self.new ≡ record self.old { position = position } }
    {
        let byte = position + STAMPED_BYTE;
        let parts = byte % self.rate * TICKS_OF_A_BYTE;
        self.position = position;
        self.time = byte / self.rate * TICKS_OF_A_BYTE + parts / self.rate;
        self.rest = parts % self.rate;
    }
}
