//! What came of a step.

/// What came of a step.
#[derive(Clone, Copy, Debug, PartialEq, Eq)]
pub enum Step {
    /// The next slot was sent.
    Sent,
    /// The next plan came into force.
    Switched,
    /// The input that the multiplex waited for had its turn.
    Turned,
    /// The multiplex waits for this input, of which nothing is seen.
    Waits(usize),
    /// All inputs are closed, and nothing waits to be sent.
    Done,
    /// The run has all its slots.
    RunFull,
}
