//! Where a worker asks its gate.

/// Where a worker stands when it asks whether it may go on.
#[derive(Clone, Copy, Debug, PartialEq, Eq)]
pub enum Point {
    /// Before it reads.
    Read,
    /// Behind a packet that went into the ring.
    Offered,
    /// Behind a packet or an end mark that found no free place in the ring.
    Full,
}
