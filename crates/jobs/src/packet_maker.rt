//! What makes packets.

/// Makes the packets of a stream, one after the other.
pub trait PacketMaker {
    /// Writes the next packet.
    fn write_next(&mut self, packet: &mut [u8; 188]);
}
