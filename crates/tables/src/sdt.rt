//! The service description table.

ghost use Rattle.std.specs.Prelude.{◌≡◌, ◌+◌, ◌/◌, ◌%◌, ◌≤◌, ◌∷◌, length, map, sum, IfOk};
ghost use Rattle.std.specs.List.{All, flat_map};
ghost use Rattle.tspkt.specs.Bits.{field};
ghost use Rattle.tables.specs.declared.sdt_row.SdtRow.{SdtRow};
ghost use Rattle.tables.specs.Sdt.{sdt_row_bytes, IsSdtRow, rows_room};

use crate::header::{Header, read_header, write_section};
use crate::rows::{read_rows, rows_length, write_rows};
use crate::sdt_row::SdtRow;
use crate::table_fault::TableFault;
use crate::write_fault::WriteFault;
use byteorder::{BigEndian, ByteOrder};
use std::alloc::{AllocError, Global};
use std::marker::Model;

/// Of the actual transport stream.
const TABLE_ID: u8 = 0x42;

/// Behind section_syntax_indicator a section of this table has reserved_future_use.
const BIT_BEHIND_SYNTAX_INDICATOR: u8 = 1;

/// The bytes of a body in front of its rows: original_network_id, and reserved bits.
const BODY_HEAD_LENGTH: usize = 3;

/// The most bytes of rows in a section of the SDT: section_length is at most 1,021, and 12 of it are no rows.
pub const MAX_SDT_ROWS_LENGTH: usize = 1009;

/// A section of the service description table of the actual transport stream (EN 300 468, 5.2.3).
/// Its table_id_extension is transport_stream_id. Contracts see its header, original_network_id and
/// rows.
#[derive(Drop)]
pub struct Sdt {
    header: Header,
    original_network_id: u16,
    rows: Vec<SdtRow>,
}

impl Model for Sdt {
    ghost use Rattle.std.specs.Prelude.{◌<◌, ◌^◌};
    ghost use Rattle.std.specs.List.{All};
    ghost use Rattle.tables.specs.Sdt.{SdtValue, IsSdtRow};
    ghost use Rattle.tables.specs.Header.{IsHeader};

    ghost Value = { SdtValue };

    ghost view = { λ s. record {
      header = s.header;
      original_network_id = s.original_network_id;
      rows = s.rows.items;
    } };

    ghost invariant = { λ s. IsHeader s.header × (s.original_network_id < 2 ^ 16) × All IsSdtRow s.rows.items };
}

impl Sdt {
    ghost use Rattle.std.specs.Prelude.{◌≡◌, ◌+◌, ◌<◌, ◌^◌, ◌⊎◌, ◌↔◌, length, Ok, Err, IfOk, IfErr, IsOk};
    ghost use Rattle.std.specs.List.{All};
    ghost use Rattle.section.specs.Crc.{crc_of};
    ghost use Rattle.tables.specs.Header.{IsHeader};
    ghost use Rattle.tables.specs.Sdt.{sdt_of, sdt_section_length_of, IsSdtRow, HasReservedSdtBits};

    /// The section with this header, original_network_id and rows. The fields must have their
    /// widths, and section_number be at most last_section_number.
    pub fn new(header: Header, original_network_id: u16, rows: Vec<SdtRow>) -> Sdt
        requires header { IsHeader header }
        requires rows { All IsSdtRow rows.items }
        ensures { result ≡ record {
          header = header;
          original_network_id = original_network_id;
          rows = rows.items;
        } }
    {
        Sdt {
            header,
            original_network_id,
            rows,
        }
    }

    /// What the bytes say as a section of the table (EN 300 468, 5.2.3).
    ///
    /// The first fault is answered, and `Memory` only for bytes that have none.
    pub fn read(alloc: Global, bytes: &[u8]) -> Result<Sdt, TableFault>
        ensures value { IfOk result (λ s. sdt_of bytes.now ≡ Ok s) }
        ensures fault { IfErr result (λ e. (e ≡ TableFault.Memory) ⊎ (sdt_of bytes.now ≡ Err e)) }
        ensures memory { result ≡ Err TableFault.Memory → IsOk (sdt_of bytes.now) }
    {
        let header = read_header(bytes, TABLE_ID, false)?;
        let body = &bytes[8..bytes.len() - 4];
        if body.len() < BODY_HEAD_LENGTH {
            return Err(TableFault::BadLoop);
        }
        let rows = read_rows(alloc, &body[BODY_HEAD_LENGTH..])?;
        Ok(Sdt {
            header,
            original_network_id: read_original_network_id(body),
            rows,
        })
    }

    /// The section (EN 300 468, 5.2.3), its reserved bits ones. Read again it gives the table back.
    /// `TooLarge` where section_length would be above 1,021; otherwise it is refused only for want
    /// of memory.
    pub fn write(&self, alloc: Global) -> Result<Vec<u8>, WriteFault>
        ensures too_large { (result ≡ Err WriteFault.TooLarge) ↔ (1021 < sdt_section_length_of self.now) }
        ensures written { IfOk result (λ v. sdt_of v.items ≡ Ok self.now) }
        ensures reserved { IfOk result (λ v. HasReservedSdtBits v.items) }
        ensures crc { IfOk result (λ v. crc_of v.items ≡ 0) }
        ensures length { IfOk result (λ v. length v.items ≡ sdt_section_length_of self.now + 3) }
    {
        let Some(length) = rows_length(&self.rows, MAX_SDT_ROWS_LENGTH) else {
            return Err(WriteFault::TooLarge);
        };
        let body = write_body(alloc, self.original_network_id, &self.rows, length)?;
        let section = write_section(
            alloc,
            TABLE_ID,
            BIT_BEHIND_SYNTAX_INDICATOR,
            &self.header,
            &body,
        )?;
        Ok(section)
    }

    /// The header.
    pub fn header(&self) -> Header
        ensures value { result ≡ self.now.header }
        ensures fits { IsHeader result }
    {
        self.header
    }

    /// original_network_id, 16 bits.
    pub fn original_network_id(&self) -> u16
        ensures { result ≡ self.now.original_network_id }
    {
        self.original_network_id
    }

    /// The rows, in the section's order.
    pub fn rows(&self) -> &[SdtRow]
        ensures value { result.now ≡ self.now.rows }
        ensures fits { All IsSdtRow result.now }
    {
        &self.rows
    }
}

/// The first 16 bits of a body.
#[tactic(auto, using(crate::proofs::SdtLaws::sdt_row_fields))]
fn read_original_network_id(body: &[u8]) -> u16
    requires { BODY_HEAD_LENGTH ≤ length body.now }
    ensures { result ≡ field body.now 0 16 }
{
    BigEndian::read_u16(body)
}

/// The body of a section with these rows, of so many bytes.
fn write_body(
    alloc: Global,
    original_network_id: u16,
    rows: &[SdtRow],
    rows_length: usize,
) -> Result<Vec<u8>, AllocError>
    requires rows { All IsSdtRow rows.now }
    requires length { rows_length ≡ sum (map (λ (r : SdtRow). 5 + length r.descriptors) rows.now) }
    requires short { rows_length ≤ rows_room }
    ensures { IfOk result (λ v. v.items
        ≡ (original_network_id / 256) ∷ (original_network_id % 256) ∷ 255 ∷ flat_map sdt_row_bytes rows.now) }
{
    let mut body = Vec::with_capacity(alloc, BODY_HEAD_LENGTH + rows_length)?;
    body.extend_from_slice(&[
        (original_network_id / 256) as u8,
        (original_network_id % 256) as u8,
        0xFF,
    ])?;
    write_rows(&mut body, rows)?;
    Ok(body)
}
