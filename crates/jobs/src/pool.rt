//! The payload of the packets.

use crate::random::Random;
use std::alloc::{AllocError, Global};

/// How many packets begin in the pool.
const STARTS: usize = 65_536;

/// How far the next packet's bytes lie behind this one's. It is odd, so that all are used.
const STEP: u16 = 191;

/// Random bytes of which packets are cut.
#[derive(Drop)]
pub struct Pool {
    bytes: Vec<u8>,
    at: u16,
}

impl Pool {
    /// One of a few tens of kilobytes.
    pub fn new(alloc: Global, random: &mut Random) -> Result<Pool, AllocError> {
        let mut bytes = Vec::new(alloc);
        for _ in 0..STARTS / 8 + 24 {
            bytes.extend_from_slice(&random.next().to_le_bytes())?;
        }
        Ok(Pool { bytes, at: 0 })
    }

    /// Fills a packet with the bytes that are next.
    pub fn fill(&mut self, packet: &mut [u8; 188]) {
        self.at = self.at.wrapping_add(STEP);
        let start = usize::from(self.at);
        if let Some(bytes) = self.bytes.get(start..start + 188)
            && let Some(bytes) = bytes.first_chunk::<188>()
        {
            *packet = *bytes;
        }
    }
}
