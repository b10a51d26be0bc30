//! What was found in an input.

ghost use Rattle.std.specs.Prelude.{◌≡◌};
ghost use Rattle.reading.specs.Counting.{nothing_counted};

use crate::stop::Stop;

/// What was found in an input, and why it was left, if it didn't end.
#[derive(Clone, Copy, Debug, PartialEq, Eq)]
pub struct Report {
    /// Packets that framing found.
    pub framed: u64,
    /// Those of them that have no packet's layout.
    pub malformed: u64,
    /// Those of them that have it, but a PID that the plan doesn't name.
    pub unmapped: u64,
    /// Packets with a bad sync byte, in a stream that kept its sync.
    pub bad: u64,
    /// How often sync was lost.
    pub losses: u64,
    /// Bytes that are in no packet.
    pub lost: u64,
    /// None where the input ended, or is still read.
    pub stopped: Option<Stop>,
}

impl Report {
    /// That of an input of which nothing was read.
    pub fn new() -> Report
        ensures { result ≡ nothing_counted }
    {
        Report {
            framed: 0,
            malformed: 0,
            unmapped: 0,
            bad: 0,
            losses: 0,
            lost: 0,
            stopped: None,
        }
    }
}
