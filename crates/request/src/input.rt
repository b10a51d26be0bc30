//! An input of a request.

use tspkt::PacketSize;

/// A transport stream that services are taken from.
#[derive(Drop)]
pub struct Input {
    /// The name of its file.
    pub file: String,
    /// Its rate, in bits a second, 500,000 to 100,000,000.
    pub rate: u64,
    /// When its first byte comes, in ticks of 27 MHz, 0 to 97,200,000,000.
    pub offset: u64,
    /// How its packets follow one another.
    pub size: PacketSize,
}
