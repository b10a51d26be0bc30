//! What an input is read from.

use std::io;
use std::io::Read;

/// A reader as in `std`, which counts its failures, so that a fault of a device is told only where the device failed.
pub trait Source {
    ghost use Rattle.std.specs.Prelude.{Option, List, ℕ, ◌≡◌, OnOk, OnErr};
    ghost use Rattle.std.specs.Io.{ReadsAtMost};
    ghost use Rattle.std.specs.Io.KnownBytes.{ReadConsumes};
    ghost use Rattle.reading.specs.Failures.{FailsOnce};

    // The bytes that reads will give from here on, where they are known.
    ghost remaining: { Self → Option (List ℕ) };

    // How many reads failed, up to the largest number of 64 bits.
    ghost failures: { Self → ℕ };

    /// Reads the next bytes into the front of `piece`, and answers how many. They are 0 only at the end, or where
    /// `piece` has no room.
    fn read(&mut self, piece: &mut [u8]) -> io::Result<usize>
        ensures bound { ReadsAtMost result piece.new }
        ensures bytes { ReadConsumes (remaining self.old) (remaining self.new) result piece.new }
        ensures ok { OnOk result (failures self.new ≡ failures self.old) }
        ensures err { OnErr result (FailsOnce (failures self.old) (failures self.new)) };
}

/// A reader of `std` as a source. Each error that it answers is a failure.
#[derive(Drop)]
pub struct ReadSource<R> {
    reader: R,
    failures: u64,
}

impl<R: Read> ReadSource<R> {
    ghost use Rattle.std.specs.Prelude.{◌≡◌};
    ghost use Rattle.reading.specs.Devices.{source_remaining, source_failures};

    /// One that has not failed yet.
    pub fn new(reader: R) -> ReadSource<R>
        ensures bytes { source_remaining R.remaining result ≡ R.remaining reader }
        ensures failures { source_failures result ≡ 0 }
    {
        ReadSource {
            reader,
            failures: 0,
        }
    }
}

impl<R: Read> Source for ReadSource<R> {
    ghost use Rattle.reading.specs.Devices.{source_remaining, source_failures};

    ghost remaining = { source_remaining R.remaining };

    ghost failures = { source_failures };

    fn read(&mut self, piece: &mut [u8]) -> io::Result<usize> {
        let read = self.reader.read(piece);
        if read.is_err() {
            self.failures = self.failures.saturating_add(1);
        }
        read
    }
}
