//! A reader over memory.

use std::io;
use std::io::Read;

/// Gives its bytes, and then ends.
#[derive(Drop)]
pub struct MemoryReader {
    bytes: Vec<u8>,
    at: usize,
}

impl MemoryReader {
    /// One that gives these.
    pub fn new(bytes: Vec<u8>) -> MemoryReader {
        MemoryReader { bytes, at: 0 }
    }
}

impl Read for MemoryReader {
    fn read(&mut self, buf: &mut [u8]) -> io::Result<usize> {
        let rest = self.bytes.get(self.at..).unwrap_or(&[]);
        let count = rest.len().min(buf.len());
        for (to, from) in buf.iter_mut().zip(rest.iter().take(count)) {
            *to = *from;
        }
        self.at = self.at.saturating_add(count);
        Ok(count)
    }
}
