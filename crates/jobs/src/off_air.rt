//! A stream as it comes off air.

use crate::packet_maker::PacketMaker;
use crate::random::Random;
use crate::stream_maker::StreamMaker;

/// How many packets come without a fault, at least.
const QUIET: u64 = 4_000;

/// A made stream with faults: wrong bits, lost packets, counters that jump, sections with a wrong CRC_32, and wrong sync bytes.
#[derive(Drop)]
pub struct OffAir {
    maker: StreamMaker,
    random: Random,
    /// How many packets come before the next fault.
    quiet: u64,
    /// How many more packets have a wrong sync byte then.
    unsynced: u64,
    /// How many streams there are.
    streams: u64,
}

impl OffAir {
    /// A stream that has so many streams in it.
    pub fn new(maker: StreamMaker, random: Random, streams: u64) -> OffAir {
        OffAir {
            maker,
            random,
            quiet: QUIET,
            unsynced: 0,
            streams: streams.max(1),
        }
    }

    /// Writes the next packet with a wrong bit, in one of so many bytes from this one on.
    fn flip(&mut self, first: usize, count: u64, packet: &mut [u8; 188]) {
        self.maker.write_next(packet);
        let place = first.saturating_add(self.random.below(count.max(1)) as usize);
        let bit = 1u8 << self.random.below(8);
        if let Some(byte) = packet.get_mut(place) {
            *byte ^= bit;
        }
    }

    /// Loses up to four packets, and writes the one behind them.
    fn lose(&mut self, packet: &mut [u8; 188]) {
        for _ in 0..self.random.below(4) + 1 {
            self.maker.write_next(packet);
        }
        self.maker.write_next(packet);
    }

    /// A counter jumps before the next packet.
    fn jump(&mut self, packet: &mut [u8; 188]) {
        let stream = self.random.below(self.streams.max(1)) as usize;
        self.maker.jump(stream, 5);
        self.maker.write_next(packet);
    }

    /// A table gets a wrong bit.
    fn break_table(&mut self, packet: &mut [u8; 188]) {
        self.maker.break_table();
        self.maker.write_next(packet);
    }

    /// Writes the next packet with a wrong sync byte.
    fn lose_sync(&mut self, packet: &mut [u8; 188]) {
        self.maker.write_next(packet);
        packet[0] ^= 0xB8;
    }

    /// Writes the next packet with a fault of one kind or another.
    fn write_faulty(&mut self, packet: &mut [u8; 188]) {
        self.quiet = QUIET.wrapping_add(self.random.below(2 * QUIET));
        match self.random.below(8) {
            0 | 1 => self.flip(4, 184, packet),
            2 => self.flip(1, 3, packet),
            3 => self.lose(packet),
            4 => self.jump(packet),
            5 => self.break_table(packet),
            6 => self.lose_sync(packet),
            _ => {
                self.unsynced = self.random.below(3);
                self.lose_sync(packet);
            }
        }
    }
}

impl PacketMaker for OffAir {
    fn write_next(&mut self, packet: &mut [u8; 188]) {
        if self.unsynced > 0 {
            self.unsynced -= 1;
            self.lose_sync(packet);
        } else if self.quiet > 0 {
            self.quiet -= 1;
            self.maker.write_next(packet);
        } else {
            self.write_faulty(packet);
        }
    }
}
