//! The beginning of a source.

use reading::Source;
use std::io;

/// A source that gives at most so many of another's bytes.
#[derive(Drop)]
pub(crate) struct FirstBytes<R> {
    source: R,
    left: u64,
}

impl<R: Source> FirstBytes<R> {
    ghost use Rattle.std.specs.Prelude.{◌≡◌};
    ghost use Rattle.probing.specs.FirstBytes.{inner_of, left_of};

    /// The first so many bytes of a source.
    pub fn new(source: R, most: u64) -> FirstBytes<R>
        ensures source { inner_of result ≡ source }
        ensures most { left_of result ≡ most }
    {
        FirstBytes { source, left: most }
    }

    /// The source.
    pub fn into_inner(self) -> R
        ensures { result ≡ inner_of self }
    {
        self.source
    }
}

impl<R: Source> Source for FirstBytes<R> {
    ghost use Rattle.std.specs.Prelude.{◌≡◌, ◌+◌, IfOk, OnErr, OnOk};
    ghost use Rattle.std.specs.Io.{ReadsAtMost};
    ghost use Rattle.std.specs.Io.KnownBytes.{ReadConsumes};
    ghost use Rattle.reading.specs.Failures.{FailsOnce};
    ghost use Rattle.probing.specs.FirstBytes.{first_remaining, first_failures, left_of};

    ghost remaining = { first_remaining R.remaining };

    ghost failures = { first_failures R.failures };

    /// Reads on, and no further than it may.
    fn read(&mut self, piece: &mut [u8]) -> io::Result<usize>
        ensures bound { ReadsAtMost result piece.new }
        ensures bytes { ReadConsumes (first_remaining R.remaining self.old) (first_remaining R.remaining self.new) result piece.new }
        ensures ok { OnOk result (first_failures R.failures self.new ≡ first_failures R.failures self.old) }
        ensures err { OnErr result (FailsOnce (first_failures R.failures self.old) (first_failures R.failures self.new)) }

        ensures counted { IfOk result (λ count. left_of self.new + count ≡ left_of self.old) }
    {
        let room = self.left.min(piece.len() as u64) as usize;
        let count = self.source.read(&mut piece[..room])?;
        self.left -= count as u64;
        Ok(count)
    }
}
