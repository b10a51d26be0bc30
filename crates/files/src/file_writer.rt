//! The writing of a file.

use crate::FileCause;
use crate::output_file::OutputFile;
use outlet::Sink;
use std::io;
use std::io::{ErrorKind, Write};

/// A writer of a file, which keeps why it failed last.
#[derive(Drop)]
pub struct FileWriter<W> {
    writer: W,
    failures: u64,
    error: io::Error,
}

impl<W: Write> FileWriter<W> {
    ghost use Rattle.std.specs.Prelude.{◌≡◌};
    ghost use Rattle.files.specs.Writing.{file_contents, file_failures};

    /// One that has not failed yet.
    pub fn new(writer: W) -> FileWriter<W>
        ensures bytes { file_contents W.contents result ≡ W.contents writer }
        ensures failures { file_failures result ≡ 0 }
    {
        FileWriter {
            writer,
            failures: 0,
            error: io::Error::from(ErrorKind::Other),
        }
    }

    /// What it writes to.
    pub fn into_inner(self) -> W
        ensures { W.contents result ≡ file_contents W.contents self }
    {
        self.writer
    }
}

impl<W: Write> Sink for FileWriter<W> {
    ghost use Rattle.files.specs.Writing.{file_contents, file_failures};

    ghost contents = { file_contents W.contents };

    ghost failures = { file_failures };

    fn write(&mut self, bytes: &[u8]) -> io::Result<usize> {
        let written = match self.writer.write(bytes) {
            Ok(0) if !bytes.is_empty() => Err(io::Error::from(ErrorKind::WriteZero)),
            other => other,
        };
        if let Err(error) = &written {
            self.failures = self.failures.saturating_add(1);
            self.error = *error;
        }
        written
    }
}

impl<W: Write> OutputFile for FileWriter<W> {
    fn cause(&self) -> FileCause {
        FileCause::of_write(self.error)
    }
}
