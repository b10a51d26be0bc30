//! A transport buffer that takes whatever comes.

ghost use Rattle.std.specs.Prelude.{◌≡◌, min, max};
ghost use Rattle.std.specs.Int.{div_ceil};
ghost use Rattle.buffers.specs.BucketValue.{level_after_packet, after_slots};

use std::marker::Model;

/// The least rate of a multiplex, in bits a second.
const LEAST_RATE: u64 = 1;
/// The greatest rate and leak, in bits a second.
const MOST_RATE: u64 = 100_000_000;

/// A transport buffer (ISO/IEC 13818-1, 2.4.2) that takes whatever comes, above 512 bytes too: its leak, the rate of the multiplex, and its
/// level after the bytes so far, in bits a second times bytes.
#[derive(Drop)]
pub struct OpenBucket {
    leak: u64,
    multiplex_rate: u64,
    level: u64,
}

impl Model for OpenBucket {
    ghost use Rattle.std.specs.Prelude.{◌≤◌};
    ghost use Rattle.buffers.specs.BucketValue.{BucketValue};

    ghost Value = { BucketValue };

    ghost view = { λ b. record { leak = b.leak; multiplex_rate = b.multiplex_rate; level = b.level } };

    ghost invariant = { λ b. (b.leak ≤ 100000000) × (1 ≤ b.multiplex_rate) × (b.multiplex_rate ≤ 100000000) };
}

impl OpenBucket {
    /// An empty buffer. The leak is at most 100,000,000 bits a second, the rate of the multiplex 1 to 100,000,000: for another number the nearest
    /// of these stands.
    pub fn new(leak: u64, multiplex_rate: u64) -> OpenBucket
        ensures { result ≡ record {
          leak = min leak 100000000;
          multiplex_rate = max (min multiplex_rate 100000000) 1;
          level = 0;
        } }
    {
        OpenBucket {
            leak: leak.min(MOST_RATE),
            multiplex_rate: multiplex_rate.min(MOST_RATE).max(LEAST_RATE),
            level: 0,
        }
    }

    /// Its leak, in bits a second.
    pub fn leak(&self) -> u64
        ensures { result ≡ self.now.leak }
    {
        self.leak
    }

    /// So many slots without a packet of its own.
    pub fn skip(&mut self, slots: u64)
        ensures { self.new ≡ after_slots self.old slots }
    {
        // No level is above the greatest u64, so a leak that is taken down to that still empties the buffer.
        let leaked = (188 * self.leak).saturating_mul(slots);
        self.level = self.level.saturating_sub(leaked);
    }

    /// A slot with a packet of its own. The level stays at the greatest number once it reaches it.
    pub fn take(&mut self)
        ensures { self.new ≡ record self.old { level = min (level_after_packet self.old) 18446744073709551615 } }
    {
        let left = u128::from(self.level.saturating_sub(self.leak));
        let full = left + u128::from(188 * self.multiplex_rate);
        let last = full.saturating_sub(u128::from(187 * self.leak));
        let level = last.max(u128::from(self.multiplex_rate));
        self.level = level.min(u128::from(u64::MAX)) as u64;
    }

    /// Its level in bytes, rounded up.
    pub fn bytes(&self) -> u64
        ensures { result ≡ div_ceil self.now.level self.now.multiplex_rate }
    {
        self.level.div_ceil(self.multiplex_rate)
    }
}
