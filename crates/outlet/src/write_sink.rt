//! A writer of `std` as a sink.

use crate::sink::Sink;
use std::io;
use std::io::{ErrorKind, Write};

/// A writer of `std` as a sink. It counts each error that it answers, and each write that takes no byte.
#[derive(Drop)]
pub struct WriteSink<W> {
    writer: W,
    failures: u64,
}

impl<W: Write> WriteSink<W> {
    ghost use Rattle.std.specs.Prelude.{◌≡◌};
    ghost use Rattle.outlet.specs.Devices.{sink_contents, sink_failures};

    /// One that has not failed yet.
    pub fn new(writer: W) -> WriteSink<W>
        ensures writer { result.writer ≡ writer }
        ensures bytes { sink_contents W.contents result ≡ W.contents writer }
        ensures failures { sink_failures result ≡ 0 }
    {
        WriteSink {
            writer,
            failures: 0,
        }
    }

    /// The writer.
    pub fn into_inner(self) -> W
        ensures writer { result ≡ self.writer }
        ensures bytes { W.contents result ≡ sink_contents W.contents self }
    {
        self.writer
    }
}

impl<W: Write> Sink for WriteSink<W> {
    ghost use Rattle.outlet.specs.Devices.{sink_contents, sink_failures};

    ghost contents = { sink_contents W.contents };

    ghost failures = { sink_failures };

    fn write(&mut self, bytes: &[u8]) -> io::Result<usize> {
        let written = match self.writer.write(bytes) {
            Ok(0) => Err(io::Error::from(ErrorKind::WriteZero)),
            other => other,
        };
        if written.is_err() {
            self.failures = self.failures.saturating_add(1);
        }
        written
    }
}
