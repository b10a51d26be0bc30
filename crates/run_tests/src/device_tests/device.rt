//! A device that counts its calls.

use std::io;
use std::io::{ErrorKind, Read, Write};

/// A read gives a byte, which says how many calls there were before; a write takes one. The call with the number `fails_at`, from 0,
/// fails.
#[derive(Drop)]
pub struct Device {
    fails_at: u8,
    pub calls: u8,
    pub flushes: u8,
}

impl Device {
    /// One that wasn't called.
    pub fn new(fails_at: u8) -> Device {
        Device {
            fails_at,
            calls: 0,
            flushes: 0,
        }
    }

    /// The number of the next call, where that doesn't fail.
    fn next(&mut self) -> io::Result<u8> {
        let call = self.calls;
        self.calls = call.saturating_add(1);
        if call == self.fails_at {
            Err(io::Error::from(ErrorKind::Other))
        } else {
            Ok(call)
        }
    }
}

impl Read for Device {
    fn read(&mut self, buf: &mut [u8]) -> io::Result<usize> {
        let call = self.next()?;
        match buf.first_mut() {
            Some(byte) => {
                *byte = call;
                Ok(1)
            }
            None => Ok(0),
        }
    }
}

impl Write for Device {
    fn write(&mut self, buf: &[u8]) -> io::Result<usize> {
        let _call = self.next()?;
        Ok(buf.len().min(1))
    }

    fn flush(&mut self) -> io::Result<()> {
        self.flushes = self.flushes.saturating_add(1);
        Ok(())
    }
}
