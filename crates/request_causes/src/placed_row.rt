//! A row `[[service.stream]]` and where it stands.

use request::{ServiceParts, StreamParts};
use std::fmt;
use std::fmt::{Display, Formatter};

/// A stream of a service, with the place of the service's input, and its own place.
#[derive(Clone, Copy, Debug, PartialEq, Eq)]
pub struct PlacedRow {
    /// The place of its service in the plan, from 0.
    pub service: usize,
    /// Its place in the service, from 0.
    pub stream: usize,
    /// The place of the service's input in the plan, from 0.
    pub input: i64,
    /// The PID in the input.
    pub pid: i64,
    /// The PID in the output.
    pub out: i64,
    /// The leak rate of the stream's transport buffer, in bits a second.
    pub leak: i64,
}

impl PlacedRow {
    ghost use Rattle.std.specs.Prelude.{◌≡◌};
    ghost use Rattle.request.specs.Request.{row_of, has_same_source, are_at_odds};
    ghost use Rattle.request_causes.specs.Causes.{stream_row, meet};

    /// The row of a stream of this service, at these places.
    pub fn new(
        place: usize,
        service: &ServiceParts,
        number: usize,
        stream: &StreamParts,
    ) -> PlacedRow
        ensures row { stream_row result ≡ row_of service.now.input stream.now }
        ensures service { result.service ≡ place }
        ensures stream { result.stream ≡ number }
    {
        PlacedRow {
            service: place,
            stream: number,
            input: service.input,
            pid: stream.pid,
            out: stream.out,
            leak: stream.leak,
        }
    }

    /// Whether both name one PID of one input.
    pub fn has_same_source(&self, other: &PlacedRow) -> bool
        ensures { result ≡ has_same_source (stream_row self.now) (stream_row other.now) }
    {
        self.input == other.input && self.pid == other.pid
    }

    /// Whether both name one PID of one input, and aren't one stream.
    pub fn is_at_odds(&self, other: &PlacedRow) -> bool
        ensures { result ≡ are_at_odds (stream_row self.now) (stream_row other.now) }
    {
        self.has_same_source(other) && !(self.out == other.out && self.leak == other.leak)
    }

    /// Whether they are two streams with one output PID.
    pub fn meets(&self, other: &PlacedRow) -> bool
        ensures { result ≡ meet (stream_row self.now) (stream_row other.now) }
    {
        !self.has_same_source(other) && self.out == other.out
    }
}

impl Display for PlacedRow {
    fn fmt<W: fmt::Write>(&self, f: &mut Formatter<W>) -> fmt::Result {
        let PlacedRow {
            service,
            stream,
            ..
        } = self;
        write!(f, "service {service}'s stream {stream}")
    }
}
