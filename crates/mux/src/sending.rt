//! What `send_next` answers.

/// What became of a slot. `Sent` and `Switched` alone change the multiplex.
#[derive(Clone, Copy, Debug, PartialEq, Eq)]
pub enum Sending {
    /// A packet was sent.
    Sent,
    /// The next plan came into force, and nothing was sent.
    Switched,
    /// An input isn't ready, and this is the least one.
    NotReady(usize),
    /// All inputs are closed, and nothing waits in a queue.
    Done,
    /// The run has all its slots.
    RunFull,
}
