//! The reading of a file.

use crate::FileCause;
use crate::file_identity::FileIdentity;
use crate::input_file::InputFile;
use reading::Source;
use std::alloc::Global;
use std::io;
use std::io::{ErrorKind, Read};

/// How many of the first bytes are kept.
const HEAD: usize = 2_048;

/// A reader of a file, which keeps its first bytes, and why it failed last.
#[derive(Drop)]
pub struct FileReader<R> {
    reader: R,
    identity: Option<FileIdentity>,
    length: Option<u64>,
    head: Vec<u8>,
    failures: u64,
    error: io::Error,
}

impl<R: Read> FileReader<R> {
    ghost use Rattle.std.specs.Prelude.{◌≡◌};
    ghost use Rattle.files.specs.FileReading.{file_reader};

    /// One that has not failed yet, of a file that is so many bytes long, if that is known.
    pub fn new(
        alloc: Global,
        reader: R,
        identity: Option<FileIdentity>,
        length: Option<u64>,
    ) -> FileReader<R>
        ensures { file_reader result ≡ reader }
    {
        FileReader {
            reader,
            identity,
            length,
            head: Vec::new(alloc),
            failures: 0,
            error: io::Error::from(ErrorKind::Other),
        }
    }

    /// What it reads from.
    pub fn into_inner(self) -> R
        ensures { result ≡ file_reader self }
    {
        self.reader
    }
}

/// Adds bytes to the first ones, while there is room, and memory.
fn add_head(head: &mut Vec<u8>, bytes: &[u8]) {
    let count = HEAD.saturating_sub(head.len()).min(bytes.len());
    let _ = head.extend_from_slice(&bytes[..count]);
}

impl<R: Read> Source for FileReader<R> {
    ghost use Rattle.files.specs.FileReading.{file_remaining, file_failures};

    ghost remaining = { file_remaining R.remaining };

    ghost failures = { file_failures };

    fn read(&mut self, piece: &mut [u8]) -> io::Result<usize> {
        let read = self.reader.read(piece);
        match &read {
            Ok(count) => add_head(&mut self.head, &piece[..*count]),
            Err(error) => {
                self.failures = self.failures.saturating_add(1);
                self.error = *error;
            }
        }
        read
    }
}

impl<R: Read> InputFile for FileReader<R> {
    fn identity(&self) -> Option<FileIdentity> {
        self.identity
    }

    fn length(&self) -> Option<u64> {
        self.length
    }

    fn head(&self) -> &[u8] {
        self.head.as_slice()
    }

    fn cause(&self) -> FileCause {
        FileCause::Read(self.error)
    }
}
