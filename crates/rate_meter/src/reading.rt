//! What a packet says of a clock.

/// A PCR that was read.
#[derive(Clone, Copy)]
pub struct Reading {
    /// The position of its packet's first byte, in bytes.
    pub position: u64,
    /// The PCR in ticks of 27 MHz, not reduced.
    pub pcr: u64,
    /// Whether the packet has the discontinuity indicator.
    pub is_discontinuous: bool,
}
