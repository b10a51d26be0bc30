//! What framing tells.

/// What stands at a place of a stream. Places and counts are in bytes, places from the stream's first byte.
#[derive(Clone, Copy)]
pub enum Item {
    /// A packet: the place of its first byte, and its bytes, the first of them 0x47.
    Packet(u64, [u8; 188]),
    /// A packet whose sync byte is bad, in a stream that keeps its sync, or ends there: the place of its first byte.
    Bad(u64),
    /// The second bad sync byte in a row loses sync: the place of the first of the two.
    SyncLoss(u64),
    /// So many bytes that are in no packet.
    Lost(u64),
}
