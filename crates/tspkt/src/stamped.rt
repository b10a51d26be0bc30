//! Packets with their times.

ghost use Rattle.std.specs.Prelude.{◌≡◌, ◌<◌, ◌≤◌};
ghost use Rattle.tspkt.specs.Stamps.{time_of};

use crate::packet::Packet;

/// A packet of an input, and when it came, in ticks of 27 MHz.
#[derive(Clone, Copy)]
pub struct Stamped {
    pub packet: Packet,
    pub stamp: u64,
}

/// When the byte at a position comes in a stream of constant rate: ticks of 27 MHz from the stream's first byte, rounded
/// down. The position is in bytes, at most 3,422,552,064, and the rate in bits a second, above 0.
pub fn time(position: u64, rate: u64) -> u64
    requires position { position ≤ 3422552064 }
    requires rate { 0 < rate }
    ensures { result ≡ time_of position rate }
{
    position * 216_000_000 / rate
}
