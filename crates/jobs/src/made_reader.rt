//! Reading a made stream.

use crate::packet_maker::PacketMaker;
use std::io;
use std::io::Read;

/// Reads a stream that is made as it is read: whole packets alone, so a buffer has to have room for one.
#[derive(Drop)]
pub struct MadeReader<M> {
    maker: M,
    /// How many packets it still has.
    left: u64,
}

impl<M: PacketMaker> MadeReader<M> {
    /// So many packets of a stream.
    pub fn new(maker: M, packets: u64) -> MadeReader<M> {
        MadeReader {
            maker,
            left: packets,
        }
    }
}

impl<M: PacketMaker> Read for MadeReader<M> {
    fn read(&mut self, buf: &mut [u8]) -> io::Result<usize> {
        let room = buf.len();
        let mut written = 0usize;
        let (packets, _) = buf.as_chunks_mut::<188>();
        for packet in packets.iter_mut() {
            if self.left == 0 {
                break;
            }
            self.left -= 1;
            self.maker.write_next(packet);
            written = written.saturating_add(188);
        }
        Ok(written.min(room))
    }
}
