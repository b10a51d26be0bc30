//! What is kept of an input.

/// What is kept of an input beside the history.
#[derive(Clone, Copy)]
pub(crate) struct InputState {
    pub closed: bool,
    /// The time of the packet that was last taken, in ticks of 27 MHz.
    pub last_stamp: u64,
    /// Whether a full queue was noted since the last slot or switch.
    pub full_noted: bool,
    /// Whether it was noted since then that its next packet belongs to a later plan.
    pub early_noted: bool,
    /// How many packets were sent.
    pub sent: u64,
    /// How many packets were dropped, or the greatest number.
    pub dropped: u64,
}
