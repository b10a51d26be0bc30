//! A writer over memory.

use std::alloc::Global;
use std::io;
use std::io::{ErrorKind, Write};

/// Keeps what is written.
#[derive(Drop)]
pub struct KeptBytes {
    pub bytes: Vec<u8>,
}

impl KeptBytes {
    /// One that got nothing.
    pub fn new(alloc: Global) -> KeptBytes {
        KeptBytes {
            bytes: Vec::new(alloc),
        }
    }
}

impl Write for KeptBytes {
    fn write(&mut self, buf: &[u8]) -> io::Result<usize> {
        match self.bytes.extend_from_slice(buf) {
            Ok(()) => Ok(buf.len()),
            Err(_) => Err(io::Error::from(ErrorKind::OutOfMemory)),
        }
    }

    fn flush(&mut self) -> io::Result<()> {
        Ok(())
    }
}
