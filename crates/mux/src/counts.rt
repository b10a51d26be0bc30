//! What the slots carried.

/// Numbers of slots, by what they carried. Together they are all slots.
#[derive(Clone, Copy, Debug, PartialEq, Eq)]
pub struct Counts {
    /// Slots with a packet of a table.
    pub tables: u64,
    /// Slots with a packet of a stream.
    pub elementary: u64,
    /// Slots with the null packet.
    pub null: u64,
}
