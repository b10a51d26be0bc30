//! How long the packets of a stream waited, and how many of them.

/// What a stream came to at most, so far.
#[derive(Clone, Copy, Debug, PartialEq, Eq)]
pub struct Peak {
    /// The largest delay of its packets that were sent, in ticks of 27 MHz: from a packet's time to its slot's. 0 where none
    /// was sent.
    pub delay: u64,
    /// The most packets that ever waited in its queue.
    pub queued: u64,
}
