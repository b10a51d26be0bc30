//! What the two copies of a version have in common.

use marks::Mark;
use schedule::Schedule;
use tspkt::Packet;

/// A version as contracts see it. No value of it is made.
pub struct Content {
    pub schedule: Schedule,
    pub packets: [Packet; 0],
    pub mark: Mark,
}
