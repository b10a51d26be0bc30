//! What an analysis is asked for.

use tspkt::PacketSize;

/// What an analysis of a stream is asked for.
#[derive(Debug, PartialEq, Eq, Drop)]
pub struct Analysis<'a> {
    /// How the stream's packets follow one another.
    pub size: PacketSize,
    /// The rate of all its bytes, in bits a second, 500,000 to 100,000,000.
    pub rate: u64,
    /// Whether its packets are sought where sync was lost; else they follow one another from its first byte on.
    pub sync: bool,
    /// After how many slots without a packet a PID's absence is told, 1 to 1,000,000.
    pub period: u64,
    /// At most so many faults have a line, 0 to 1,000,000; all have one where it is none.
    pub limit: Option<u64>,
    /// Whether such a line also says at which byte and millisecond its fault is.
    pub places: bool,
    /// Whether faults and packets are counted by PID.
    pub summary: bool,
    /// The file of a plan, if one is named: the highest levels of its streams' transport buffers are shown.
    pub levels: Option<&'a str>,
    /// Further PIDs, and the leak rates of their transport buffers, in bits a second, 1 to 100,000,000.
    pub leaks: Vec<(u16, u64)>,
    /// Whether all of it is printed as JSON.
    pub json: bool,
    /// The name of the stream's file.
    pub file: &'a str,
}
