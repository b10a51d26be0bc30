//! A transport buffer's level, as one number.
//!
//! The buffer TBn of ISO/IEC 13818-1, 2.4.2, takes the packets of its set and leaks at a constant rate; it holds at most
//! 512 bytes. The level is counted in bits a second times bytes, so that it is a whole number at each byte: a byte of
//! the set adds the rate of the multiplex, and from each byte to the next the leak is taken off.

ghost use Rattle.std.specs.Prelude.{◌≡◌, ◌↔◌, ◌*◌, ◌≤◌, ◌++◌, ℕ, List, [], true, false, IsTrue};
ghost use Rattle.buffers.specs.Level.{packet_bytes};
ghost use Rattle.buffers.specs.BucketValue.{IsFilledBy, NewestFit, AllFit, level_after_packet, HasRoom, after_packet, after_others, after_slots};

use std::marker::Model;

/// How many bytes a transport buffer holds (ISO/IEC 13818-1, 2.4.2).
pub const TRANSPORT_BUFFER_BYTES: u64 = 512;

/// A transport buffer: its leak, the rate of the multiplex, and its level after the bytes so far.
#[derive(Drop)]
pub struct Bucket {
    leak: u64,
    multiplex_rate: u64,
    level: u64,
}

impl Model for Bucket {
    ghost use Rattle.buffers.specs.BucketValue.{BucketValue, IsBucket};

    ghost Value = { BucketValue };

    ghost view = { λ b. record { leak = b.leak; multiplex_rate = b.multiplex_rate; level = b.level } };

    ghost invariant = { λ b. IsBucket
        record { leak = b.leak; multiplex_rate = b.multiplex_rate; level = b.level } };
}

impl Bucket {
    /// An empty buffer. The leak is 1 to 100,000,000 bits a second, the rate of the multiplex 500,000 to 100,000,000.
    pub fn new(leak: u64, multiplex_rate: u64) -> Bucket
        requires leak_from { 1 ≤ leak }
        requires leak_to { leak ≤ 100000000 }
        requires rate_from { 500000 ≤ multiplex_rate }
        requires rate_to { multiplex_rate ≤ 100000000 }
        ensures value { result ≡ record { leak = leak; multiplex_rate = multiplex_rate; level = 0 } }
        ensures empty { IsFilledBy result [] }
    {
        Bucket {
            leak,
            multiplex_rate,
            level: 0,
        }
    }

    /// The level, in bits a second times bytes: at most 512 times the rate of the multiplex.
    pub fn level(&self) -> u64
        ensures value { result ≡ self.now.level }
        ensures within { result ≤ TRANSPORT_BUFFER_BYTES * self.now.multiplex_rate }
    {
        self.level
    }

    /// The level after a packet of the set that comes next.
    fn level_after_packet(&self) -> u64
        ensures { result ≡ level_after_packet self.now }
    {
        let left = self.level.saturating_sub(self.leak);
        let last = (left + 188 * self.multiplex_rate).saturating_sub(187 * self.leak);
        last.max(self.multiplex_rate)
    }

    /// Whether a packet of the set may come next: no load of a window that ends in it is above 512 bytes.
    pub fn fits(&self) -> bool
        ensures room { IsTrue result ↔ HasRoom self.now }
        ensures windows { (bytes : List ℕ) → IsFilledBy self.now bytes
            → (IsTrue result ↔ NewestFit self.now 188 (packet_bytes true ++ bytes)) }
    {
        // The last byte decides: no byte before it takes the level above that, above where it stood, or above one byte.
        self.level_after_packet() <= TRANSPORT_BUFFER_BYTES * self.multiplex_rate
    }

    /// The buffer so many slots later, of which none carries a packet of the set.
    pub fn after(&self, slots: u64) -> Bucket
        ensures { result ≡ after_slots self.now slots }
    {
        // No level is above the greatest u64, so a leak that is taken down to that still empties the buffer.
        let leaked = (188 * self.leak).saturating_mul(slots);
        Bucket {
            leak: self.leak,
            multiplex_rate: self.multiplex_rate,
            level: self.level.saturating_sub(leaked),
        }
    }

    /// One slot that carries a packet of the set, which fits.
    pub fn send(&mut self)
        requires { HasRoom self.old }
        ensures value { self.new ≡ after_packet self.old }
        ensures level { (bytes : List ℕ) → IsFilledBy self.old bytes
            → IsFilledBy self.new (packet_bytes true ++ bytes) }
        ensures all_fit { (bytes : List ℕ) → IsFilledBy self.old bytes → AllFit self.old bytes
            → AllFit self.new (packet_bytes true ++ bytes) }
    {
        self.level = self.level_after_packet();
    }

    /// One slot of 188 bytes that are not of the set.
    pub fn idle(&mut self)
        ensures value { self.new ≡ after_others self.old }
        ensures level { (bytes : List ℕ) → IsFilledBy self.old bytes
            → IsFilledBy self.new (packet_bytes false ++ bytes) }
        ensures all_fit { (bytes : List ℕ) → IsFilledBy self.old bytes → AllFit self.old bytes
            → AllFit self.new (packet_bytes false ++ bytes) }
    {
        self.level = self.level.saturating_sub(188 * self.leak);
    }
}
