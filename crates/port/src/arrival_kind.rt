//! What kind of arrival came out of a ring.

/// What came out of a ring: a packet, or the mark that its input ended and no packet follows.
#[derive(Clone, Copy, Debug, PartialEq, Eq)]
pub enum ArrivalKind {
    /// A packet of the input. The end of the ring shows it, until the next comes.
    Packet,
    /// The input ended.
    End,
}
