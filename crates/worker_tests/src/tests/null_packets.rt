//! A reader of packets that no plan names.

use std::alloc::Global;
use std::io;
use std::io::Read;
use std::sync::Arc;
use std::sync::atomic::{AtomicU64, Ordering};

/// How often a reader is read until it ends.
const READS: u64 = 10;

/// Gives five null packets a read, ten times, and then ends. It counts how often it was read.
#[derive(Drop)]
pub struct NullPackets {
    pub reads: Arc<AtomicU64, Global>,
}

impl Read for NullPackets {
    fn read(&mut self, buf: &mut [u8]) -> io::Result<usize> {
        let reads = self.reads.load(Ordering::SeqCst);
        self.reads.store(reads.saturating_add(1), Ordering::SeqCst);
        if reads >= READS {
            return Ok(0);
        }
        let count = buf.len().min(940);
        for (place, to) in buf.iter_mut().take(count).enumerate() {
            *to = match place % 188 {
                0 => 0x47,
                1 => 0x1F,
                3 => 0x10,
                _ => 0xFF,
            };
        }
        Ok(count)
    }
}
