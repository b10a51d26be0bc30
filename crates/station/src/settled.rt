//! What became of the packets of a port.

/// Numbers of packets that a port sent: together they are all of them. The end mark isn't counted.
#[derive(Clone, Copy, Debug, PartialEq, Eq)]
pub struct Settled {
    /// Those that the multiplex took; 2^64 - 1 stands for all greater numbers.
    pub taken: u64,
    /// Those that came out of the ring and were refused, and are offered again: one or none.
    pub held: u64,
    /// Those that are still in the ring.
    pub left: u64,
}
