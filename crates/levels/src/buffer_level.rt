//! The level of a PID's transport buffer.

use crate::open_bucket::OpenBucket;

/// How many bytes a transport buffer holds (ISO/IEC 13818-1, 2.4.2).
const HOLDS: u64 = 512;

/// The level of a PID's transport buffer, and the highest that it had.
#[derive(Drop)]
pub struct BufferLevel {
    pid: u16,
    bucket: OpenBucket,
    /// The slot behind the last packet of the PID.
    next: u64,
    packets: u64,
    highest: u64,
    slot: u64,
    over: u64,
}

impl BufferLevel {
    /// That of an empty buffer before the first slot, by its leak and the rate of the multiplex, in bits a second.
    pub(crate) fn new(pid: u16, leak: u64, multiplex_rate: u64) -> BufferLevel {
        BufferLevel {
            pid,
            bucket: OpenBucket::new(leak, multiplex_rate),
            next: 0,
            packets: 0,
            highest: 0,
            slot: 0,
            over: 0,
        }
    }

    /// This slot has a packet of the PID, and is behind those that had one. The answer is the level behind it, in bytes, rounded up.
    pub(crate) fn see(&mut self, slot: u64) -> u64 {
        self.bucket.skip(slot.saturating_sub(self.next));
        self.bucket.take();
        self.next = slot.saturating_add(1);
        self.packets = self.packets.saturating_add(1);
        let bytes = self.bucket.bytes();
        if bytes > self.highest {
            self.highest = bytes;
            self.slot = slot;
        }
        if bytes > HOLDS {
            self.over = self.over.saturating_add(1);
        }
        bytes
    }

    /// The PID.
    pub fn pid(&self) -> u16 {
        self.pid
    }

    /// The leak, in bits a second.
    pub fn leak(&self) -> u64 {
        self.bucket.leak()
    }

    /// How many packets of the PID there were.
    pub fn packets(&self) -> u64 {
        self.packets
    }

    /// The highest level, in bytes, rounded up.
    pub fn highest(&self) -> u64 {
        self.highest
    }

    /// The slot at whose end it was so high first.
    pub fn slot(&self) -> u64 {
        self.slot
    }

    /// How many of its packets took it above 512 bytes, or found it there still.
    pub fn over(&self) -> u64 {
        self.over
    }
}
