//! What a sequence is made of.

use tspkt::Packet;

/// An entry of a sequence. No list of them is kept when it runs.
#[derive(Clone, Copy)]
pub enum Entry {
    Packet(Packet),
    /// Nothing follows it.
    Seal,
}
