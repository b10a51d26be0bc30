//! A row of a program map table.

use crate::descriptor_loop::DescriptorLoop;
use crate::row::Row;
use byteorder::{BigEndian, ByteOrder};
use std::alloc::{AllocError, Global};

/// An elementary stream in a PMT (ISO/IEC 13818-1, 2.4.4.8).
#[derive(Drop)]
pub struct PmtRow {
    /// 8 bits.
    pub stream_type: u8,
    /// elementary_PID: 13 bits, 0 to 0x1FFF.
    pub elementary_pid: u16,
    /// The descriptors of the elementary stream.
    pub descriptors: DescriptorLoop,
}

impl Row for PmtRow {
    ghost use Rattle.tables.specs.Pmt.{pmt_row_of, pmt_row_bytes, IsPmtRow};

    ghost head_bytes = { 5 };

    ghost row_of = { pmt_row_of };

    ghost written = { pmt_row_bytes };

    ghost descriptor_bytes = { λ r. r.descriptors };

    ghost IsRow = { IsPmtRow };

    fn head_length() -> usize {
        5
    }

    #[tactic(auto, using(crate::proofs::PmtLaws::pmt_fields))]
    fn read(alloc: Global, head: &[u8], descriptors: &[u8]) -> Result<PmtRow, AllocError> {
        let descriptors = DescriptorLoop::copy(alloc, descriptors)?;
        Ok(PmtRow {
            stream_type: head[0],
            elementary_pid: BigEndian::read_u16(&head[1..3]) % 0x2000,
            descriptors,
        })
    }

    fn descriptors(&self) -> &[u8] {
        self.descriptors.bytes()
    }

    fn write(&self, out: &mut Vec<u8>) -> Result<(), AllocError> {
        let length = self.descriptors.bytes().len();
        out.extend_from_slice(&[
            self.stream_type,
            0xE0 + (self.elementary_pid / 256) as u8,
            (self.elementary_pid % 256) as u8,
            0xF0 + (length / 256) as u8,
            (length % 256) as u8,
        ])?;
        out.extend_from_slice(self.descriptors.bytes())?;
        Ok(())
    }
}
