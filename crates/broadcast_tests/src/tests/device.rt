//! A writer over memory, which fails at a write that a test chooses.

use std::io;
use std::io::{ErrorKind, Write};

/// Keeps bytes, at most so many a write. The write with the number `fails_at`, from 0, takes none.
#[derive(Drop)]
pub struct TestWriter {
    pub bytes: Vec<u8>,
    pub step: usize,
    pub fails_at: usize,
    pub calls: usize,
}

impl Write for TestWriter {
    fn write(&mut self, buf: &[u8]) -> io::Result<usize> {
        let call = self.calls;
        self.calls = call.saturating_add(1);
        if call == self.fails_at {
            return Ok(0);
        }
        let count = buf.len().min(self.step);
        match self.bytes.extend_from_slice(&buf[..count]) {
            Ok(()) => Ok(count),
            Err(_) => Err(io::Error::from(ErrorKind::OutOfMemory)),
        }
    }

    fn flush(&mut self) -> io::Result<()> {
        Ok(())
    }
}
