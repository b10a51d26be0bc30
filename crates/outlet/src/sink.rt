//! What an output is written to.

use std::io;

/// A writer as in `std`, which counts its failures. A write that takes no byte is a failure.
pub trait Sink {
    ghost use Rattle.std.specs.Prelude.{Option, List, ℕ, ◌≡◌, ◌<◌, length, OnOk, OnErr, IfOk};
    ghost use Rattle.std.specs.Io.{WritesAtMost};
    ghost use Rattle.std.specs.Io.KnownBytes.{WriteAppends};
    ghost use Rattle.reading.specs.Failures.{FailsOnce};

    // The bytes that were written, where they are known.
    ghost contents: { Self → Option (List ℕ) };

    // How many writes failed, up to the largest number of 64 bits.
    ghost failures: { Self → ℕ };

    /// Writes bytes from the front of `bytes`, of which there are some, and answers how many.
    fn write(&mut self, bytes: &[u8]) -> io::Result<usize>
        requires { 0 < length bytes.now }
        ensures bound { WritesAtMost result bytes.now }
        ensures some { IfOk result (λ count. 0 < count) }
        ensures bytes { WriteAppends (contents self.old) (contents self.new) result bytes.now }
        ensures ok { OnOk result (failures self.new ≡ failures self.old) }
        ensures err { OnErr result (FailsOnce (failures self.old) (failures self.new)) };
}
