//! Whether a run goes on behind a step.

/// Whether a run goes on behind a step.
#[derive(Clone, Copy)]
pub(crate) enum Turn {
    /// It goes on.
    Goes,
    /// Nothing is left to send, or the run has all its slots.
    Over,
}
