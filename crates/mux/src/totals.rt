//! What became of an input's packets.

/// Numbers of packets of an input. `taken` is `sent`, `dropped` and `queued` together. `taken` and `dropped` stay at the greatest number
/// once they reach it.
#[derive(Clone, Copy, Debug, PartialEq, Eq)]
pub struct Totals {
    /// Those that were taken.
    pub taken: u64,
    /// Those of them that were sent.
    pub sent: u64,
    /// Those of them that were dropped, since their stream was in force no longer.
    pub dropped: u64,
    /// Those of them that wait in queues.
    pub queued: u64,
}
