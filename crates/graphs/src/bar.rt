//! How long the packets of a stream waited.

/// How long the packets of a stream waited at most.
#[derive(Clone, Copy, Debug, PartialEq, Eq)]
pub struct Bar {
    /// The PID in the output.
    pub pid: u16,
    /// In ticks of 27 MHz.
    pub delay: u64,
}
