//! The program map table.

ghost use Rattle.std.specs.Prelude.{◌≡◌, ◌<◌, ◌≤◌, ◌^◌, length};
ghost use Rattle.tspkt.specs.Bits.{field};

use crate::descriptor_loop::DescriptorLoop;
use crate::header::{Header, read_header, write_section};
use crate::pmt_row::PmtRow;
use crate::rows::{read_rows, rows_length, split_row, write_rows};
use crate::table_fault::TableFault;
use crate::write_fault::WriteFault;
use byteorder::{BigEndian, ByteOrder};
use section::MAX_SECTION_LENGTH;
use std::alloc::{AllocError, Global};
use std::marker::Model;

const TABLE_ID: u8 = 0x02;

/// Behind section_syntax_indicator a section of this table has '0'.
const BIT_BEHIND_SYNTAX_INDICATOR: u8 = 0;

/// The bytes up to program_info_length.
const HEAD_LENGTH: usize = 4;

/// The program map table of a program (ISO/IEC 13818-1, 2.4.4.8), always of one section. Its
/// table_id_extension is program_number. Contracts see its header, its fields and its rows.
#[derive(Drop)]
pub struct Pmt {
    header: Header,
    pcr_pid: u16,
    program_info: DescriptorLoop,
    rows: Vec<PmtRow>,
}

impl Model for Pmt {
    ghost use Rattle.std.specs.Prelude.{◌≡◌, ◌<◌, ◌^◌, true};
    ghost use Rattle.std.specs.List.{All};
    ghost use Rattle.tables.specs.Descriptors.{are_whole};
    ghost use Rattle.tables.specs.Header.{IsSingleHeader};
    ghost use Rattle.tables.specs.Pmt.{PmtValue, IsPmtRow};

    ghost Value = { PmtValue };

    ghost view = { λ p. record {
      header = p.header;
      pcr_pid = p.pcr_pid;
      program_info = p.program_info;
      rows = p.rows.items;
    } };

    ghost invariant = { λ p. IsSingleHeader p.header × (p.pcr_pid < 2 ^ 13)
        × (are_whole 0 p.program_info ≡ true) × All IsPmtRow p.rows.items };
}

impl Pmt {
    ghost use Rattle.std.specs.Prelude.{◌≡◌, ◌+◌, ◌<◌, ◌≤◌, ◌^◌, ◌⊎◌, ◌↔◌, true, length, Ok, Err, None, IfOk, IfErr, IsOk, IfSome};
    ghost use Rattle.std.specs.List.{All};
    ghost use Rattle.section.specs.Crc.{crc_of};
    ghost use Rattle.tables.specs.Descriptors.{are_whole};
    ghost use Rattle.tables.specs.Header.{IsSingleHeader};
    ghost use Rattle.tables.specs.Pmt.{pmt_of, pmt_behind_header, pmt_section_length_of, pmt_body_bytes, IsPmtRow, HasReservedPmtBits};

    /// The table with this header and these fields, which must have their widths. section_number
    /// and last_section_number must be 0.
    pub fn new(header: Header, pcr_pid: u16, program_info: DescriptorLoop, rows: Vec<PmtRow>) -> Pmt
        requires header { IsSingleHeader header }
        requires pcr_pid { pcr_pid < 2 ^ 13 }
        requires rows { All IsPmtRow rows.items }
        ensures { result ≡ record {
          header = header;
          pcr_pid = pcr_pid;
          program_info = program_info;
          rows = rows.items;
        } }
    {
        Pmt {
            header,
            pcr_pid,
            program_info,
            rows,
        }
    }

    /// What the bytes say as a section of the table (ISO/IEC 13818-1, 2.4.4.8).
    ///
    /// The first fault is answered, and `Memory` only for bytes that have none.
    pub fn read(alloc: Global, bytes: &[u8]) -> Result<Pmt, TableFault>
        ensures value { IfOk result (λ p. pmt_of bytes.now ≡ Ok p) }
        ensures fault { IfErr result (λ e. (e ≡ TableFault.Memory) ⊎ (pmt_of bytes.now ≡ Err e)) }
        ensures memory { result ≡ Err TableFault.Memory → IsOk (pmt_of bytes.now) }
    {
        let header = read_header(bytes, TABLE_ID, true)?;
        Pmt::read_body(alloc, header, &bytes[8..bytes.len() - 4])
    }

    /// What the body says, behind this header.
    fn read_body(alloc: Global, header: Header, body: &[u8]) -> Result<Pmt, TableFault>
        requires { IsSingleHeader header }
        ensures value { IfOk result (λ p. pmt_behind_header (Ok header) body.now ≡ Ok p) }
        ensures fault { IfErr result (λ e.
            (e ≡ TableFault.Memory) ⊎ (pmt_behind_header (Ok header) body.now ≡ Err e)) }
        ensures memory { result ≡ Err TableFault.Memory →
            IsOk (pmt_behind_header (Ok header) body.now) }
    {
        let Some(program) = split_row(body, HEAD_LENGTH) else {
            return Err(TableFault::BadLoop);
        };
        let rows = read_rows(alloc, program.rest)?;
        let program_info = DescriptorLoop::copy(alloc, program.descriptors)?;
        Ok(Pmt {
            header,
            pcr_pid: read_pcr_pid(program.head),
            program_info,
            rows,
        })
    }

    /// The section (ISO/IEC 13818-1, 2.4.4.8), its reserved bits ones. Read again it gives the
    /// table back. `TooLarge` where section_length would be above 1,021; otherwise it is refused
    /// only for want of memory.
    pub fn write(&self, alloc: Global) -> Result<Vec<u8>, WriteFault>
        ensures too_large { (result ≡ Err WriteFault.TooLarge)
            ↔ (1021 < pmt_section_length_of self.now) }
        ensures written { IfOk result (λ v. pmt_of v.items ≡ Ok self.now) }
        ensures reserved { IfOk result (λ v. HasReservedPmtBits v.items) }
        ensures crc { IfOk result (λ v. crc_of v.items ≡ 0) }
        ensures length { IfOk result (λ v. length v.items ≡ pmt_section_length_of self.now + 3) }
    {
        let Some(section_length) = self.section_length() else {
            return Err(WriteFault::TooLarge);
        };
        let body = self.write_body(alloc, section_length)?;
        let section = write_section(
            alloc,
            TABLE_ID,
            BIT_BEHIND_SYNTAX_INDICATOR,
            &self.header,
            &body,
        )?;
        Ok(section)
    }

    /// section_length, where it is at most 1,021. No sum here is above that.
    fn section_length(&self) -> Option<usize>
        ensures value { IfSome result (λ n. n ≡ pmt_section_length_of self.now) }
        ensures fits { IfSome result (λ n. n ≤ MAX_SECTION_LENGTH) }
        ensures too_large { result ≡ None → MAX_SECTION_LENGTH < pmt_section_length_of self.now }
    {
        let info = self.program_info.bytes().len();
        let most = (MAX_SECTION_LENGTH - 13).checked_sub(info)?;
        let rows = rows_length(&self.rows, most)?;
        Some(13 + info + rows)
    }

    /// The body, where section_length is as said.
    fn write_body(&self, alloc: Global, section_length: usize) -> Result<Vec<u8>, AllocError>
        requires value { section_length ≡ pmt_section_length_of self.now }
        requires fits { section_length ≤ MAX_SECTION_LENGTH }
        ensures bytes { IfOk result (λ v. v.items ≡ pmt_body_bytes self.now) }
        ensures length { IfOk result (λ v. length v.items + 9 ≡ section_length) }
    {
        let info = self.program_info.bytes();
        let head = [
            0xE0 + (self.pcr_pid / 256) as u8,
            (self.pcr_pid % 256) as u8,
            0xF0 + (info.len() / 256) as u8,
            (info.len() % 256) as u8,
        ];
        let mut body = Vec::with_capacity(alloc, section_length - 9)?;
        body.extend_from_slice(&head)?;
        body.extend_from_slice(info)?;
        write_rows(&mut body, &self.rows)?;
        Ok(body)
    }

    /// The header.
    pub fn header(&self) -> Header
        ensures value { result ≡ self.now.header }
        ensures fits { IsSingleHeader result }
    {
        self.header
    }

    /// PCR_PID, 0 to 0x1FFF; 0x1FFF where no packets carry a PCR of the program.
    pub fn pcr_pid(&self) -> u16
        ensures value { result ≡ self.now.pcr_pid }
        ensures fits { result < 2 ^ 13 }
    {
        self.pcr_pid
    }

    /// The descriptors of the program.
    pub fn program_info(&self) -> &DescriptorLoop
        ensures { result.now ≡ self.now.program_info }
    {
        &self.program_info
    }

    /// The rows, in the section's order.
    pub fn rows(&self) -> &[PmtRow]
        ensures value { result.now ≡ self.now.rows }
        ensures fits { All IsPmtRow result.now }
    {
        &self.rows
    }
}

/// PCR_PID, in the head of the body.
#[tactic(auto, using(crate::proofs::PmtLaws::pmt_fields))]
fn read_pcr_pid(head: &[u8]) -> u16
    requires { 2 ≤ length head.now }
    ensures value { result ≡ field head.now 3 13 }
    ensures fits { result < 2 ^ 13 }
{
    BigEndian::read_u16(head) % 0x2000
}
