//! What a clock says of its stream.

/// What the clock of a PID says of its stream.
#[derive(Clone, Copy)]
pub struct Measured {
    pub pid: u16,
    /// The rate, in bits a second.
    pub rate: u64,
    /// Whether the rate is variable: the fastest second is more than 1 per cent above the slowest.
    pub is_variable: bool,
    /// How many points the clock's line has: PCRs without a splice before them.
    pub points: u64,
}
