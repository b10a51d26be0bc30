//! Where an output goes.

use std::io;
use std::io::{Stdout, Write};

/// Where an output goes.
#[derive(Drop)]
pub enum OutputPlace<F> {
    /// To a file, a device or a pipe.
    File(F),
    /// To standard output.
    Standard(Stdout),
}

impl<F: Write> Write for OutputPlace<F> {
    fn write(&mut self, buf: &[u8]) -> io::Result<usize> {
        match self {
            OutputPlace::File(file) => file.write(buf),
            OutputPlace::Standard(standard) => standard.write(buf),
        }
    }

    fn flush(&mut self) -> io::Result<()> {
        match self {
            OutputPlace::File(file) => file.flush(),
            OutputPlace::Standard(standard) => standard.flush(),
        }
    }
}
