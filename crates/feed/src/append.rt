//! What changes a version.

use marks::Mark;
use tspkt::Packet;

/// One packet more, and the mark of all packets up to it.
#[derive(Drop)]
pub struct Append {
    pub packet: Packet,
    pub mark: Mark,
}
