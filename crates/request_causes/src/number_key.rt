//! The numbers of a plan that have a range of their own.

use std::fmt;
use std::fmt::{Display, Formatter};

/// A number of a plan, by its key.
#[derive(Clone, Copy, Debug, PartialEq, Eq)]
pub enum NumberKey {
    Rate,
    Period,
    Watch,
    Version,
    Queue,
    Ring,
    TransportStreamId,
    OriginalNetworkId,
    NetworkId,
    Offset,
    Program,
    Service,
    Pmt,
    Pid,
    Out,
    Leak,
}

impl NumberKey {
    /// The key as the plan writes it.
    pub fn name(self) -> &'static str {
        match self {
            NumberKey::Rate => "rate",
            NumberKey::Period => "period",
            NumberKey::Watch => "watch",
            NumberKey::Version => "version",
            NumberKey::Queue => "queue",
            NumberKey::Ring => "ring",
            NumberKey::TransportStreamId => "transport_stream_id",
            NumberKey::OriginalNetworkId => "original_network_id",
            NumberKey::NetworkId => "network_id",
            NumberKey::Offset => "offset",
            NumberKey::Program => "program",
            NumberKey::Service => "service",
            NumberKey::Pmt => "pmt",
            NumberKey::Pid => "pid",
            NumberKey::Out => "out",
            NumberKey::Leak => "leak",
        }
    }

    /// Whether the number is a PID.
    pub fn is_pid(self) -> bool {
        matches!(self, NumberKey::Pmt | NumberKey::Pid | NumberKey::Out)
    }
}

impl Display for NumberKey {
    fn fmt<W: fmt::Write>(&self, f: &mut Formatter<W>) -> fmt::Result {
        f.write_str(self.name())
    }
}
