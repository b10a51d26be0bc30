//! A reader of bytes in memory.

use std::io;
use std::io::Read;

/// Gives its bytes, and then ends.
#[derive(Drop)]
pub struct GivenBytes {
    pub bytes: Vec<u8>,
    pub at: usize,
}

impl Read for GivenBytes {
    fn read(&mut self, buf: &mut [u8]) -> io::Result<usize> {
        let rest = self.bytes.get(self.at..).unwrap_or(&[]);
        let count = rest.len().min(buf.len());
        for (to, from) in buf.iter_mut().zip(rest.iter().take(count)) {
            *to = *from;
        }
        self.at = self.at.saturating_add(count);
        Ok(count)
    }
}
