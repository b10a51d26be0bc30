//! What goes through a ring.

use tspkt::Stamped;

/// What comes out of a ring: a packet with its time, or the mark that its input ended and no packet follows.
#[derive(Clone, Copy)]
pub enum Arrival {
    /// A packet of the input, and when it came.
    Packet(Stamped),
    /// The input ended.
    End,
}
