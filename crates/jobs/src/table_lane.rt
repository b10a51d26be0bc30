//! The packets of a table.

/// The packet of a table, which comes again and again.
#[derive(Clone, Copy, Debug)]
pub struct TableLane {
    packet: [u8; 188],
    counter: u8,
}

impl TableLane {
    /// That of a packet with payload alone.
    pub fn new(packet: &[u8; 188]) -> TableLane {
        TableLane {
            packet: *packet,
            counter: 0,
        }
    }

    /// Writes the next packet.
    pub fn write(&mut self, packet: &mut [u8; 188]) {
        *packet = self.packet;
        packet[3] = 0x10 | self.counter;
        self.counter = self.counter.wrapping_add(1) % 16;
    }
}
