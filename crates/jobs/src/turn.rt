//! How a stream gets its turns.

/// A stream that gets its share of the places.
#[derive(Clone, Copy, Debug)]
pub struct Turn {
    /// How many places it gets of those of its service.
    pub weight: i64,
    /// What it is owed, in places of all streams.
    pub owed: i64,
    /// Whether it has its service's PCR.
    pub has_clock: bool,
    /// Whether its next packet has to have the PCR.
    pub is_due: bool,
}
