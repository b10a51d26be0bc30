//! A service that a plan can take.

use probe::Codec;

/// A stream of a service that a plan can take.
#[derive(Clone, Copy, Debug, PartialEq, Eq)]
pub(crate) struct CandidateStream {
    /// Its PID in the file, 0x0020 to 0x1FFE.
    pub pid: u16,
    /// How it is coded.
    pub codec: Codec,
    /// The leak rate of its transport buffer, in bits a second.
    pub leak: u64,
    /// The highest rate that was measured of it, in bits a second.
    pub highest: u64,
}

/// A service that a plan can take.
#[derive(Drop)]
pub(crate) struct Candidate {
    /// The place of its file.
    pub file: usize,
    /// Its number there.
    pub program: u16,
    /// Its name.
    pub name: String,
    /// Its streams, each PID once.
    pub streams: Vec<CandidateStream>,
}
