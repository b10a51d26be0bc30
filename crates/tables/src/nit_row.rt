//! A row of a network information table.

use crate::descriptor_loop::DescriptorLoop;
use crate::row::Row;
use byteorder::{BigEndian, ByteOrder};
use std::alloc::{AllocError, Global};

/// A transport stream in an NIT (EN 300 468, 5.2.1).
#[derive(Drop)]
pub struct NitRow {
    /// 16 bits.
    pub transport_stream_id: u16,
    /// 16 bits.
    pub original_network_id: u16,
    /// The descriptors of the transport stream.
    pub descriptors: DescriptorLoop,
}

impl Row for NitRow {
    ghost use Rattle.tables.specs.Nit.{nit_row_of, nit_row_bytes, IsNitRow};

    ghost head_bytes = { 6 };

    ghost row_of = { nit_row_of };

    ghost written = { nit_row_bytes };

    ghost descriptor_bytes = { λ r. r.descriptors };

    ghost IsRow = { IsNitRow };

    fn head_length() -> usize {
        6
    }

    #[tactic(auto, using(crate::proofs::NitLaws::nit_fields))]
    fn read(alloc: Global, head: &[u8], descriptors: &[u8]) -> Result<NitRow, AllocError> {
        let descriptors = DescriptorLoop::copy(alloc, descriptors)?;
        Ok(NitRow {
            transport_stream_id: BigEndian::read_u16(head),
            original_network_id: BigEndian::read_u16(&head[2..]),
            descriptors,
        })
    }

    fn descriptors(&self) -> &[u8] {
        self.descriptors.bytes()
    }

    fn write(&self, out: &mut Vec<u8>) -> Result<(), AllocError> {
        let length = self.descriptors.bytes().len();
        out.extend_from_slice(&[
            (self.transport_stream_id / 256) as u8,
            (self.transport_stream_id % 256) as u8,
            (self.original_network_id / 256) as u8,
            (self.original_network_id % 256) as u8,
            0xF0 + (length / 256) as u8,
            (length % 256) as u8,
        ])?;
        out.extend_from_slice(self.descriptors.bytes())?;
        Ok(())
    }
}
