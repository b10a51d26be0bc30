//! What became of a program inside a stream.

/// How a program changed (ISO/IEC 13818-1, 2.4.4.3 and 2.4.4.8).
#[derive(Clone, Copy, Debug, PartialEq, Eq)]
pub enum Change {
    /// A PAT has no row of it any more.
    Left,
    /// A PAT names another PID for its PMT.
    Moved,
    /// Its PMT has another version.
    Pmt,
}

/// A change of a program.
#[derive(Clone, Copy, Debug, PartialEq, Eq)]
pub struct ProgramChange {
    pub change: Change,
    /// The number of the packet that tells it, from 0, by its position in the stream.
    pub packet: u64,
}
