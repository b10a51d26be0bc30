//! Where a packet stands in a stream.

/// Where a packet stands in a stream.
#[derive(Clone, Copy, Debug, PartialEq, Eq)]
pub struct Place {
    /// How many packets were found before it.
    pub packet: u64,
    /// The position of its first byte in the stream, in bytes.
    pub position: u64,
}
