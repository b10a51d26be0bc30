//! The program association table.

ghost use Rattle.std.specs.Prelude.{◌≡◌, ◌+◌, ◌*◌, ◌<◌, ◌≤◌, ◌⊎◌, ◌^◌, length, Some, None, IfOk, IfErr, IsSome};
ghost use Rattle.std.specs.List.{All, flat_map};
ghost use Rattle.tables.specs.Pat.{pat_rows_of, pat_row_of, pat_row_bytes, IsPatRow};

use crate::header::{Header, read_header, write_section};
use crate::pat_row::PatRow;
use crate::table_fault::TableFault;
use crate::write_fault::WriteFault;
use byteorder::{BigEndian, ByteOrder};
use section::MAX_SECTION_LENGTH;
use std::alloc::{AllocError, Global};
use std::marker::Model;

const TABLE_ID: u8 = 0x00;

/// Behind section_syntax_indicator a section of this table has '0'.
const BIT_BEHIND_SYNTAX_INDICATOR: u8 = 0;

/// A section of the program association table (ISO/IEC 13818-1, 2.4.4.3). Its
/// table_id_extension is transport_stream_id. Contracts see its header and its rows.
#[derive(Drop)]
pub struct Pat {
    header: Header,
    rows: Vec<PatRow>,
}

impl Model for Pat {
    ghost use Rattle.std.specs.List.{All};
    ghost use Rattle.tables.specs.Pat.{PatValue, IsPatRow};
    ghost use Rattle.tables.specs.Header.{IsHeader};

    ghost Value = { PatValue };

    ghost view = { λ p. record { header = p.header; rows = p.rows.items } };

    ghost invariant = { λ p. IsHeader p.header × All IsPatRow p.rows.items };
}

impl Pat {
    ghost use Rattle.std.specs.Prelude.{◌≡◌, ◌+◌, ◌*◌, ◌<◌, ◌⊎◌, ◌↔◌, length, Ok, Err, IfOk, IfErr, IsOk};
    ghost use Rattle.std.specs.List.{All};
    ghost use Rattle.section.specs.Crc.{crc_of};
    ghost use Rattle.tables.specs.Header.{IsHeader};
    ghost use Rattle.tables.specs.Pat.{pat_of, IsPatRow, HasReservedPatBits};

    /// The section with this header and these rows. The fields must have their widths, and
    /// section_number be at most last_section_number.
    pub fn new(header: Header, rows: Vec<PatRow>) -> Pat
        requires header { IsHeader header }
        requires rows { All IsPatRow rows.items }
        ensures { result ≡ record { header = header; rows = rows.items } }
    {
        Pat { header, rows }
    }

    /// What the bytes say as a section of the table (ISO/IEC 13818-1, 2.4.4.3).
    ///
    /// The first fault is answered, and `Memory` only for bytes that have none.
    pub fn read(alloc: Global, bytes: &[u8]) -> Result<Pat, TableFault>
        ensures value { IfOk result (λ p. pat_of bytes.now ≡ Ok p) }
        ensures fault { IfErr result (λ e. (e ≡ TableFault.Memory) ⊎ (pat_of bytes.now ≡ Err e)) }
        ensures memory { result ≡ Err TableFault.Memory → IsOk (pat_of bytes.now) }
    {
        let header = read_header(bytes, TABLE_ID, false)?;
        let rows = read_rows(alloc, &bytes[8..bytes.len() - 4])?;
        Ok(Pat { header, rows })
    }

    /// The section (ISO/IEC 13818-1, 2.4.4.3), its reserved bits ones. Read again it gives the
    /// table back. `TooLarge` where section_length would be above 1,021, so with more than 253
    /// rows; otherwise it is refused only for want of memory.
    pub fn write(&self, alloc: Global) -> Result<Vec<u8>, WriteFault>
        ensures too_large { (result ≡ Err WriteFault.TooLarge)
            ↔ (1021 < 9 + 4 * length self.now.rows) }
        ensures written { IfOk result (λ v. pat_of v.items ≡ Ok self.now) }
        ensures reserved { IfOk result (λ v. HasReservedPatBits (length self.now.rows) v.items) }
        ensures crc { IfOk result (λ v. crc_of v.items ≡ 0) }
        ensures length { IfOk result (λ v. length v.items ≡ 9 + 4 * length self.now.rows + 3) }
    {
        if self.rows.len() > (MAX_SECTION_LENGTH - 9) / 4 {
            return Err(WriteFault::TooLarge);
        }
        let body = write_rows(alloc, &self.rows)?;
        let section = write_section(
            alloc,
            TABLE_ID,
            BIT_BEHIND_SYNTAX_INDICATOR,
            &self.header,
            &body,
        )?;
        Ok(section)
    }

    /// The header.
    pub fn header(&self) -> Header
        ensures value { result ≡ self.now.header }
        ensures fits { IsHeader result }
    {
        self.header
    }

    /// The rows, in the section's order.
    pub fn rows(&self) -> &[PatRow]
        ensures value { result.now ≡ self.now.rows }
        ensures fits { All IsPatRow result.now }
    {
        &self.rows
    }
}

/// The row in four bytes.
#[tactic(auto, using(crate::proofs::PatLaws::pat_row_fields))]
fn read_row(bytes: &[u8]) -> PatRow
    requires { length bytes.now ≡ 4 }
    ensures { result ≡ pat_row_of bytes.now }
{
    PatRow {
        program_number: BigEndian::read_u16(bytes),
        pid: BigEndian::read_u16(&bytes[2..]) % 0x2000,
    }
}

/// The rows that the bytes are.
#[tactic(auto, using(crate::proofs::PatLaws::whole_rows))]
fn read_rows(alloc: Global, body: &[u8]) -> Result<Vec<PatRow>, TableFault>
    ensures rows { IfOk result (λ v. pat_rows_of body.now ≡ Some v.items) }
    ensures fault { IfErr result (λ e.
        (e ≡ TableFault.Memory) ⊎ ((e ≡ TableFault.BadLoop) × (pat_rows_of body.now ≡ None))) }
    ensures memory { result ≡ Err TableFault.Memory → IsSome (pat_rows_of body.now) }
{
    if body.len() % 4 != 0 {
        return Err(TableFault::BadLoop);
    }
    let count = body.len() / 4;
    let mut rows = Vec::with_capacity(alloc, count)?;
    for i in 0..count {
        rows.push_reserved(read_row(&body[4 * i..4 * i + 4]));
    }
    Ok(rows)
}

/// The row in four bytes.
fn row_bytes(row: &PatRow) -> [u8; 4]
    requires { row.now.pid < 2 ^ 13 }
    ensures { result ≡ pat_row_bytes row.now }
{
    [
        (row.program_number / 256) as u8,
        (row.program_number % 256) as u8,
        0xE0 + (row.pid / 256) as u8,
        (row.pid % 256) as u8,
    ]
}

/// The bytes of the rows.
fn write_rows(alloc: Global, rows: &[PatRow]) -> Result<Vec<u8>, AllocError>
    requires few { length rows.now ≤ 253 }
    requires rows { All IsPatRow rows.now }
    ensures bytes { IfOk result (λ v. v.items ≡ flat_map pat_row_bytes rows.now) }
    ensures length { IfOk result (λ v. length v.items ≡ 4 * length rows.now) }
{
    let mut out = Vec::with_capacity(alloc, 4 * rows.len())?;
    for row in rows {
        out.extend_from_slice(&row_bytes(row))?;
    }
    Ok(out)
}
