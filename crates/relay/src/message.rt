//! What goes from the sender to the receiver.

use tspkt::Packet;

/// What comes out of a relay: a block of packets, or the mark that no block follows.
#[derive(Drop)]
pub enum Message {
    /// The packets of a block, in their order.
    Block(Vec<Packet>),
    /// Nothing follows.
    End,
}
