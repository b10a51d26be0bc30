//! A row `[[service.stream]]` with the input of its service.

use crate::service_parts::ServiceParts;
use crate::stream_parts::StreamParts;

/// A stream of a service, with the place of the service's input.
#[derive(Clone, Copy, Debug, Default, PartialEq, Eq)]
pub struct StreamRow {
    pub input: i64,
    pub pid: i64,
    pub out: i64,
    pub leak: i64,
}

impl StreamRow {
    ghost use Rattle.std.specs.Prelude.{◌≡◌};
    ghost use Rattle.request.specs.Request.{row_of, has_same_source, are_at_odds};

    /// The row of a stream of this service.
    pub fn new(service: &ServiceParts, stream: &StreamParts) -> StreamRow
        ensures { result ≡ row_of service.now.input stream.now }
    {
        StreamRow {
            input: service.input,
            pid: stream.pid,
            out: stream.out,
            leak: stream.leak,
        }
    }

    /// Whether both name one PID of one input.
    pub fn has_same_source(&self, other: &StreamRow) -> bool
        ensures { result ≡ has_same_source self.now other.now }
    {
        self.input == other.input && self.pid == other.pid
    }

    /// Whether both name one PID of one input, and aren't one stream.
    pub fn is_at_odds(&self, other: &StreamRow) -> bool
        ensures { result ≡ are_at_odds self.now other.now }
    {
        self.has_same_source(other) && !(self.out == other.out && self.leak == other.leak)
    }
}
