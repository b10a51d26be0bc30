//! What became of the next slot of a broadcast.

use mux::Sending;

/// What became of the next slot of a broadcast.
#[derive(Clone, Copy, Debug, PartialEq, Eq)]
pub enum TickedSlot {
    /// The station was ticked, and its multiplex answered this.
    Answered(Sending),
    /// A packet of an earlier call still waits for memory to be appended to the feed, and the station wasn't ticked.
    Memory,
}
