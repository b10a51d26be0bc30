//! What `offer` answers.

/// What became of a packet that was offered. It stays with the caller.
#[derive(Clone, Copy, Debug, PartialEq, Eq)]
pub enum Offered {
    /// It was taken.
    Taken,
    /// Its input was closed.
    Closed,
    /// No stream of the plan that it belongs to has its PID.
    Stranger,
    /// Its time is before that of the packet that was last taken of its input.
    Backward,
    /// It belongs to a plan after the one in force.
    Early,
    /// The queue of its stream is full.
    Full,
}
