//! Packets that are cut out of bytes.

/// The length of a packet, in bytes.
const PACKET: usize = 188;

/// The packet that bytes come to, which may come in any pieces.
#[derive(Drop)]
pub(crate) struct PacketCut {
    packet: [u8; PACKET],
    /// How many of its bytes came.
    filled: usize,
}

impl PacketCut {
    /// That of no bytes.
    pub fn new() -> PacketCut {
        PacketCut {
            packet: [0; PACKET],
            filled: 0,
        }
    }

    /// The next byte comes. The answer is the packet, where it is whole now.
    pub fn add(&mut self, byte: u8) -> Option<&[u8; PACKET]> {
        if self.filled < PACKET {
            self.packet[self.filled] = byte;
            self.filled += 1;
        }
        if self.filled < PACKET {
            return None;
        }
        self.filled = 0;
        Some(&self.packet)
    }
}
