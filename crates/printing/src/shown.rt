//! What is shown of an analysis.

/// What is shown of an analysis beside its last line.
#[derive(Clone, Copy, Debug, PartialEq, Eq)]
pub struct Shown {
    /// At most so many faults have a line; all, where it is none.
    pub limit: Option<u64>,
    /// Whether such a line also says at which byte of the file the fault's slot begins, and when that byte comes.
    pub places: bool,
    /// Whether faults and packets are counted by PID.
    pub summary: bool,
    /// Whether all of this, and the last line, is one JSON document.
    pub json: bool,
}
