//! An output whose writing is noted.

use crate::output_watch::OutputWatch;
use files::{FileCause, OutputFile};
use graphs::Record;
use outlet::Sink;
use std::io;

/// A sink, and where its writing is noted, if it is.
#[derive(Drop)]
pub struct WatchedSink<W> {
    sink: W,
    watch: Option<OutputWatch>,
}

impl<W> WatchedSink<W> {
    ghost use Rattle.std.specs.Prelude.{◌≡◌};
    ghost use Rattle.live.specs.Watching.{sink_of};

    /// A sink whose writing is noted so.
    pub(crate) fn new(sink: W, watch: Option<OutputWatch>) -> WatchedSink<W>
        ensures { sink_of result ≡ sink }
    {
        WatchedSink { sink, watch }
    }

    /// What was kept of it for a picture, if it was; it is kept no longer.
    pub(crate) fn take_record(&mut self) -> Option<Record> {
        self.watch.as_mut()?.take_record()
    }

    /// The sink.
    pub fn into_inner(self) -> W
        ensures { result ≡ sink_of self }
    {
        self.sink
    }
}

impl<W: Sink> Sink for WatchedSink<W> {
    ghost use Rattle.live.specs.Watching.{watched_contents, watched_write_failures};

    ghost contents = { watched_contents W.contents };

    ghost failures = { watched_write_failures W.failures };

    fn write(&mut self, bytes: &[u8]) -> io::Result<usize> {
        let written = self.sink.write(bytes);
        if let Ok(count) = &written
            && let Some(watch) = &mut self.watch
        {
            watch.add(&bytes[..*count]);
        }
        written
    }
}

impl<W: OutputFile> OutputFile for WatchedSink<W> {
    fn cause(&self) -> FileCause {
        self.sink.cause()
    }
}
