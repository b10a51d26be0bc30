//! An input whose reading is noted.

use crate::input_watch::InputWatch;
use files::{FileCause, FileIdentity, InputFile};
use reading::Source;
use std::io;

/// A source, and where its reading is noted, if it is.
#[derive(Drop)]
pub struct Watched<R> {
    source: R,
    watch: Option<InputWatch>,
}

impl<R> Watched<R> {
    ghost use Rattle.std.specs.Prelude.{◌≡◌};
    ghost use Rattle.live.specs.Watching.{source_of};

    /// A source whose reading is noted so.
    pub(crate) fn new(source: R, watch: Option<InputWatch>) -> Watched<R>
        ensures { source_of result ≡ source }
    {
        Watched { source, watch }
    }
}

impl<R: Source> Source for Watched<R> {
    ghost use Rattle.live.specs.Watching.{watched_remaining, watched_failures};

    ghost remaining = { watched_remaining R.remaining };

    ghost failures = { watched_failures R.failures };

    fn read(&mut self, piece: &mut [u8]) -> io::Result<usize> {
        if let Some(watch) = &self.watch {
            watch.begin();
        }
        let read = self.source.read(piece);
        let count = match &read {
            Ok(count) => *count,
            Err(_) => 0,
        };
        if let Some(watch) = &mut self.watch {
            watch.end(&piece[..count]);
        }
        read
    }
}

impl<R: InputFile> InputFile for Watched<R> {
    fn identity(&self) -> Option<FileIdentity> {
        self.source.identity()
    }

    fn length(&self) -> Option<u64> {
        self.source.length()
    }

    fn head(&self) -> &[u8] {
        self.source.head()
    }

    fn cause(&self) -> FileCause {
        self.source.cause()
    }
}
