//! What came of an input's turn.

/// What came of an input's turn.
#[derive(Clone, Copy, Debug, PartialEq, Eq)]
pub enum Taking {
    /// Its next packet was taken.
    Took,
    /// Its next packet is held back: the queue of its stream is full, or it belongs to a later plan.
    HeldBack,
    /// The input was closed: nothing more comes of it, or its next packet can never be taken.
    Closed,
    /// Nothing is seen of it, and more may come.
    Waits,
}
