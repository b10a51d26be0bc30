//! What a turn of a run did.

/// What a turn of a run did.
#[derive(Clone, Copy)]
pub(crate) enum Turn {
    /// The station went on.
    Goes,
    /// An input isn't ready.
    Waits,
    /// Nothing is left to send, or the run has all its slots.
    Over,
    /// The run was over before all was handed on.
    CutShort,
}
