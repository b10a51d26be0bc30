//! Readers and writers over memory.

use std::alloc::Global;
use std::io;
use std::io::{ErrorKind, Read, Write};

/// How many bytes come a read: not those of whole packets.
const STEP: usize = 100;

/// Gives its bytes, and then ends.
#[derive(Drop)]
pub struct GivenBytes {
    bytes: Vec<u8>,
    at: usize,
}

impl GivenBytes {
    /// One that gives these.
    pub fn new(bytes: Vec<u8>) -> GivenBytes {
        GivenBytes { bytes, at: 0 }
    }
}

impl Read for GivenBytes {
    fn read(&mut self, buf: &mut [u8]) -> io::Result<usize> {
        let rest = self.bytes.get(self.at..).unwrap_or(&[]);
        let count = rest.len().min(buf.len()).min(STEP);
        for (to, from) in buf.iter_mut().zip(rest.iter().take(count)) {
            *to = *from;
        }
        self.at = self.at.saturating_add(count);
        Ok(count)
    }
}

/// Keeps what is written.
#[derive(Drop)]
pub struct KeptBytes {
    pub bytes: Vec<u8>,
}

impl KeptBytes {
    /// One that got nothing.
    pub fn new(alloc: Global) -> KeptBytes {
        KeptBytes {
            bytes: Vec::new(alloc),
        }
    }
}

impl Write for KeptBytes {
    fn write(&mut self, buf: &[u8]) -> io::Result<usize> {
        match self.bytes.extend_from_slice(buf) {
            Ok(()) => Ok(buf.len()),
            Err(_) => Err(io::Error::from(ErrorKind::OutOfMemory)),
        }
    }

    fn flush(&mut self) -> io::Result<()> {
        Ok(())
    }
}
