//! What may go in the next slot.

use request::Stream;

/// A stream whose head is due and fits its transport buffer, with its index in the plan.
#[derive(Clone, Copy)]
pub(crate) struct Candidate {
    pub index: usize,
    pub stream: Stream,
    /// That of the head, in ticks of 27 MHz.
    pub stamp: u64,
}
