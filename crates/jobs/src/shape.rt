//! What an input has.

/// The bits of a packet.
const PACKET_BITS: u64 = 1_504;

/// What a made stream has: so many services, each of so many streams, of which the first has the PCR.
#[derive(Clone, Copy, Debug)]
pub struct Shape {
    /// In bits a second.
    pub rate: u64,
    pub services: u8,
    /// Of each service.
    pub streams: u8,
    /// How many packets of a hundred are null, or of so many that are no tables.
    pub nulls: u64,
}

impl Shape {
    /// How many whole packets a second has.
    pub fn packets_a_second(self) -> u64 {
        self.rate / PACKET_BITS
    }
}
