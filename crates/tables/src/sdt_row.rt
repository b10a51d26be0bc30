//! A row of a service description table.

use crate::descriptor_loop::DescriptorLoop;
use crate::row::Row;
use byteorder::{BigEndian, ByteOrder};
use std::alloc::{AllocError, Global};

/// A service in an SDT (EN 300 468, 5.2.3).
#[derive(Drop)]
pub struct SdtRow {
    /// 16 bits: the program_number of the service's PMT.
    pub service_id: u16,
    /// Whether EIT schedule information of the service is in the stream.
    pub eit_schedule_flag: bool,
    /// Whether EIT present/following information of the service is in the stream.
    pub eit_present_following_flag: bool,
    /// 3 bits, 0 to 7.
    pub running_status: u8,
    /// Whether an access control system may control a stream of the service.
    pub free_ca_mode: bool,
    /// The descriptors of the service.
    pub descriptors: DescriptorLoop,
}

impl Row for SdtRow {
    ghost use Rattle.tables.specs.Sdt.{sdt_row_of, sdt_row_bytes, IsSdtRow};

    ghost head_bytes = { 5 };

    ghost row_of = { sdt_row_of };

    ghost written = { sdt_row_bytes };

    ghost descriptor_bytes = { λ r. r.descriptors };

    ghost IsRow = { IsSdtRow };

    fn head_length() -> usize {
        5
    }

    #[tactic(auto, using(crate::proofs::SdtLaws::sdt_row_fields))]
    fn read(alloc: Global, head: &[u8], descriptors: &[u8]) -> Result<SdtRow, AllocError> {
        let descriptors = DescriptorLoop::copy(alloc, descriptors)?;
        Ok(SdtRow {
            service_id: BigEndian::read_u16(head),
            eit_schedule_flag: head[2] / 2 % 2 == 1,
            eit_present_following_flag: head[2] % 2 == 1,
            running_status: head[3] / 32,
            free_ca_mode: head[3] / 16 % 2 == 1,
            descriptors,
        })
    }

    fn descriptors(&self) -> &[u8] {
        self.descriptors.bytes()
    }

    fn write(&self, out: &mut Vec<u8>) -> Result<(), AllocError> {
        let length = self.descriptors.bytes().len();
        out.extend_from_slice(&[
            (self.service_id / 256) as u8,
            (self.service_id % 256) as u8,
            0xFC + u8::from(self.eit_schedule_flag) * 2 + u8::from(self.eit_present_following_flag),
            self.running_status * 32 + u8::from(self.free_ca_mode) * 16 + (length / 256) as u8,
            (length % 256) as u8,
        ])?;
        out.extend_from_slice(self.descriptors.bytes())?;
        Ok(())
    }
}
