//! The network information table of the actual network.

ghost use Rattle.std.specs.Prelude.{◌≡◌, ◌+◌, ◌/◌, ◌%◌, ◌<◌, ◌^◌, [], ◌∷◌, ◌↔◌, true, drop, IsSome, IfSome};
ghost use Rattle.tables.specs.Descriptors.{are_whole};
ghost use Rattle.tables.specs.Rows.{first_row};
ghost use Rattle.tables.specs.Nit.{transport_stream_loop_of, has_whole_parts};

use crate::descriptor_loop::DescriptorLoop;
use crate::header::{Header, read_header, write_section};
use crate::nit_row::NitRow;
use crate::rows::{loop_length, read_rows, rows_length, split_row, write_rows};
use crate::table_fault::TableFault;
use crate::write_fault::WriteFault;
use section::MAX_SECTION_LENGTH;
use std::alloc::{AllocError, Global};
use std::marker::Model;

const TABLE_ID: u8 = 0x40;

/// Behind section_syntax_indicator a section of this table has reserved_future_use.
const BIT_BEHIND_SYNTAX_INDICATOR: u8 = 1;

/// The bytes up to network_descriptors_length.
const HEAD_LENGTH: usize = 2;

/// A section of the network information table of the actual network (EN 300 468, 5.2.1). Its
/// table_id_extension is network_id. Contracts see its header, its descriptors and its rows.
#[derive(Drop)]
pub struct Nit {
    header: Header,
    network_descriptors: DescriptorLoop,
    rows: Vec<NitRow>,
}

impl Model for Nit {
    ghost use Rattle.std.specs.Prelude.{◌≡◌, true};
    ghost use Rattle.std.specs.List.{All};
    ghost use Rattle.tables.specs.Descriptors.{are_whole};
    ghost use Rattle.tables.specs.Header.{IsHeader};
    ghost use Rattle.tables.specs.Nit.{NitValue, IsNitRow};

    ghost Value = { NitValue };

    ghost view = { λ n. record {
      header = n.header;
      network_descriptors = n.network_descriptors;
      rows = n.rows.items;
    } };

    ghost invariant = { λ n. IsHeader n.header
        × (are_whole 0 n.network_descriptors ≡ true) × All IsNitRow n.rows.items };
}

impl Nit {
    ghost use Rattle.std.specs.Prelude.{◌≡◌, ◌+◌, ◌<◌, ◌≤◌, ◌⊎◌, ◌↔◌, true, length, Ok, Err, None, IfOk, IfErr, IsOk, IfSome};
    ghost use Rattle.std.specs.List.{All};
    ghost use Rattle.section.specs.Crc.{crc_of};
    ghost use Rattle.tables.specs.Header.{IsHeader};
    ghost use Rattle.tables.specs.Nit.{nit_of, nit_behind_header, nit_section_length_of, nit_body_bytes, IsNitRow, HasReservedNitBits};

    /// The section with this header, these descriptors of the network and these rows. The fields
    /// must have their widths, and section_number be at most last_section_number.
    pub fn new(header: Header, network_descriptors: DescriptorLoop, rows: Vec<NitRow>) -> Nit
        requires header { IsHeader header }
        requires rows { All IsNitRow rows.items }
        ensures { result ≡ record {
          header = header;
          network_descriptors = network_descriptors;
          rows = rows.items;
        } }
    {
        Nit {
            header,
            network_descriptors,
            rows,
        }
    }

    /// What the bytes say as a section of the table (EN 300 468, 5.2.1).
    ///
    /// The first fault is answered, and `Memory` only for bytes that have none.
    pub fn read(alloc: Global, bytes: &[u8]) -> Result<Nit, TableFault>
        ensures value { IfOk result (λ n. nit_of bytes.now ≡ Ok n) }
        ensures fault { IfErr result (λ e. (e ≡ TableFault.Memory) ⊎ (nit_of bytes.now ≡ Err e)) }
        ensures memory { result ≡ Err TableFault.Memory → IsOk (nit_of bytes.now) }
    {
        let header = read_header(bytes, TABLE_ID, false)?;
        Nit::read_body(alloc, header, &bytes[8..bytes.len() - 4])
    }

    /// What the body says, behind this header.
    fn read_body(alloc: Global, header: Header, body: &[u8]) -> Result<Nit, TableFault>
        requires { IsHeader header }
        ensures value { IfOk result (λ n. nit_behind_header (Ok header) body.now ≡ Ok n) }
        ensures fault { IfErr result (λ e.
            (e ≡ TableFault.Memory) ⊎ (nit_behind_header (Ok header) body.now ≡ Err e)) }
        ensures memory { result ≡ Err TableFault.Memory →
            IsOk (nit_behind_header (Ok header) body.now) }
    {
        let Some((network_descriptors, rows)) = split_body(body) else {
            return Err(TableFault::BadLoop);
        };
        let rows = read_rows(alloc, rows)?;
        let network_descriptors = DescriptorLoop::copy(alloc, network_descriptors)?;
        Ok(Nit {
            header,
            network_descriptors,
            rows,
        })
    }

    /// The section (EN 300 468, 5.2.1), its reserved bits ones. Read again it gives the table
    /// back. `TooLarge` where section_length would be above 1,021; otherwise it is refused only
    /// for want of memory.
    pub fn write(&self, alloc: Global) -> Result<Vec<u8>, WriteFault>
        ensures too_large { (result ≡ Err WriteFault.TooLarge)
            ↔ (1021 < nit_section_length_of self.now) }
        ensures written { IfOk result (λ v. nit_of v.items ≡ Ok self.now) }
        ensures reserved { IfOk result (λ v. HasReservedNitBits v.items) }
        ensures crc { IfOk result (λ v. crc_of v.items ≡ 0) }
        ensures length { IfOk result (λ v. length v.items ≡ nit_section_length_of self.now + 3) }
    {
        let Some(section_length) = self.section_length() else {
            return Err(WriteFault::TooLarge);
        };
        let body = self.write_body(alloc, section_length)?;
        let section = write_section(
            alloc,
            TABLE_ID,
            BIT_BEHIND_SYNTAX_INDICATOR,
            &self.header,
            &body,
        )?;
        Ok(section)
    }

    /// section_length, where it is at most 1,021. No sum here is above that.
    fn section_length(&self) -> Option<usize>
        ensures value { IfSome result (λ n. n ≡ nit_section_length_of self.now) }
        ensures fits { IfSome result (λ n. n ≤ MAX_SECTION_LENGTH) }
        ensures too_large { result ≡ None → MAX_SECTION_LENGTH < nit_section_length_of self.now }
    {
        let network = self.network_descriptors.bytes().len();
        let most = (MAX_SECTION_LENGTH - 13).checked_sub(network)?;
        let rows = rows_length(&self.rows, most)?;
        Some(13 + network + rows)
    }

    /// The body, where section_length is as said.
    fn write_body(&self, alloc: Global, section_length: usize) -> Result<Vec<u8>, AllocError>
        requires value { section_length ≡ nit_section_length_of self.now }
        requires fits { section_length ≤ MAX_SECTION_LENGTH }
        ensures bytes { IfOk result (λ v. v.items ≡ nit_body_bytes self.now) }
        ensures length { IfOk result (λ v. length v.items + 9 ≡ section_length) }
    {
        let network = self.network_descriptors.bytes();
        let mut body = Vec::with_capacity(alloc, section_length - 9)?;
        body.extend_from_slice(&length_bytes(network.len()))?;
        body.extend_from_slice(network)?;
        body.extend_from_slice(&length_bytes(section_length - 13 - network.len()))?;
        write_rows(&mut body, &self.rows)?;
        Ok(body)
    }

    /// The header.
    pub fn header(&self) -> Header
        ensures value { result ≡ self.now.header }
        ensures fits { IsHeader result }
    {
        self.header
    }

    /// The descriptors of the network.
    pub fn network_descriptors(&self) -> &DescriptorLoop
        ensures { result.now ≡ self.now.network_descriptors }
    {
        &self.network_descriptors
    }

    /// The rows, in the section's order.
    pub fn rows(&self) -> &[NitRow]
        ensures value { result.now ≡ self.now.rows }
        ensures fits { All IsNitRow result.now }
    {
        &self.rows
    }
}

/// The descriptors of the network and the bytes of the rows; none where the descriptors aren't
/// whole, or transport_stream_loop_length isn't that of the bytes behind it.
fn split_body(body: &[u8]) -> Option<(&[u8], &[u8])>
    ensures whole { IsSome result ↔ (has_whole_parts body.now ≡ true) }
    ensures descriptors { IfSome result (λ parts.
        parts.0.now ≡ (first_row 2 body.now).descriptors) }
    ensures whole_descriptors { IfSome result (λ parts. are_whole 0 parts.0.now ≡ true) }
    ensures rows { IfSome result (λ parts.
        parts.1.now ≡ drop 2 (transport_stream_loop_of body.now)) }
{
    let network = split_row(body, HEAD_LENGTH)?;
    if network.rest.len() < 2 {
        return None;
    }
    let rows = &network.rest[2..];
    if loop_length(network.rest, 2) != rows.len() {
        return None;
    }
    Some((network.descriptors, rows))
}

/// Four reserved bits, ones, and a length of 12 bits.
fn length_bytes(length: usize) -> [u8; 2]
    requires { length < 2 ^ 12 }
    ensures { result ≡ (0xF0 + length / 256) ∷ (length % 256) ∷ [] }
{
    [0xF0 + (length / 256) as u8, (length % 256) as u8]
}
