//! The header that the sections of all four tables share.
#![tactic(auto, using(crate::proofs::HeaderLaws::header_fields))]

ghost use Rattle.std.specs.Prelude.{◌≡◌, ◌≢◌, ◌+◌, ◌<◌, ◌≤◌, Bool, false, true, length, MatchResult, OnOk, IfOk};
ghost use Rattle.tspkt.specs.Bits.{field};
ghost use Rattle.section.specs.Crc.{crc_of};
ghost use Rattle.section.specs.Section.{section_length_of};
ghost use Rattle.tables.specs.Header.{has_bad_length, has_bad_header, header_fields_of, header_of, section_bytes, IsHeader, IsSingleHeader};

use crate::table_fault::TableFault;
use byteorder::{BigEndian, ByteOrder};
use section::{MAX_SECTION_LENGTH, crc};
use std::alloc::{AllocError, Global};

/// What stands in the header of a section (ISO/IEC 13818-1, 2.4.4.3; EN 300 468, 5.2).
#[derive(Clone, Copy, Debug, PartialEq, Eq)]
pub struct Header {
    /// 16 bits: transport_stream_id (PAT, SDT), program_number (PMT) or network_id (NIT).
    pub table_id_extension: u16,
    /// 5 bits, 0 to 31.
    pub version_number: u8,
    /// Whether the section is in force now, and not the next to be.
    pub current_next_indicator: bool,
    /// At most last_section_number; 0 in a PMT.
    pub section_number: u8,
    /// The number of the table's last section; 0 in a PMT.
    pub last_section_number: u8,
}

/// section_length.
fn section_length(bytes: &[u8]) -> u16
    requires { 3 ≤ length bytes.now }
    ensures { result ≡ section_length_of bytes.now }
{
    BigEndian::read_u16(&bytes[1..3]) % 0x1000
}

/// Whether section_length isn't that of the bytes, or that of no section.
#[tactic(auto, using(crate::proofs::HeaderLaws::header_fields), unfolding(crate::specs::Header::has_bad_length))]
fn has_bad_length(bytes: &[u8]) -> bool
    requires { 3 ≤ length bytes.now }
    ensures exact { result ≡ has_bad_length bytes.now }
    ensures long { result ≡ false → 12 ≤ length bytes.now }
{
    let count = usize::from(section_length(bytes));
    count + 3 != bytes.len() || count < 9 || count > MAX_SECTION_LENGTH
}

/// Whether section_syntax_indicator is 0, or the numbers of sections don't go together.
#[tactic(auto, using(crate::proofs::HeaderLaws::header_fields), unfolding(crate::specs::Header::has_bad_header))]
fn has_bad_header(bytes: &[u8], is_single_section: bool) -> bool
    requires { 12 ≤ length bytes.now }
    ensures exact { result ≡ has_bad_header is_single_section bytes.now }
    ensures order { result ≡ false → field bytes.now 48 8 ≤ field bytes.now 56 8 }
    ensures single { result ≡ false → is_single_section ≡ true → field bytes.now 56 8 ≡ 0 }
{
    bytes[1] < 128
        || bytes[7] < bytes[6]
        || (is_single_section && !(bytes[6] == 0 && bytes[7] == 0))
}

/// What stands in the header.
fn header_fields(bytes: &[u8]) -> Header
    requires { 12 ≤ length bytes.now }
    ensures exact { result ≡ header_fields_of bytes.now }
    ensures version { result.version_number < 32 }
{
    Header {
        table_id_extension: BigEndian::read_u16(&bytes[3..5]),
        version_number: bytes[5] / 2 % 32,
        current_next_indicator: bytes[5] % 2 == 1,
        section_number: bytes[6],
        last_section_number: bytes[7],
    }
}

/// The header of a section with this table_id, or the first fault.
#[tactic(auto, using(crate::proofs::HeaderLaws::table_id_at), unfolding(crate::specs::Header::header_of))]
pub fn read_header(
    bytes: &[u8],
    table_id: u8,
    is_single_section: bool,
) -> Result<Header, TableFault>
    ensures exact { MatchResult result
        (λ h. header_of table_id is_single_section bytes.now ≡ Ok h)
        (λ e. header_of table_id is_single_section bytes.now ≡ Err e) }
    ensures long { OnOk result (12 ≤ length bytes.now) }
    ensures whole { IfOk result IsHeader }
    ensures single { is_single_section ≡ true → IfOk result IsSingleHeader }
    ensures known { result ≢ Err TableFault.Memory }
{
    if bytes.len() < 3 {
        return Err(TableFault::Short);
    }
    if bytes[0] != table_id {
        return Err(TableFault::WrongId);
    }
    if has_bad_length(bytes) {
        return Err(TableFault::BadLength);
    }
    if crc(bytes) != 0 {
        return Err(TableFault::BadCrc);
    }
    if has_bad_header(bytes, is_single_section) {
        return Err(TableFault::BadHeader);
    }
    Ok(header_fields(bytes))
}

/// The section with this table_id, the bit behind section_syntax_indicator, this header and this
/// body.
pub fn write_section(
    alloc: Global,
    table_id: u8,
    bit_behind_syntax_indicator: u8,
    header: &Header,
    body: &[u8],
) -> Result<Vec<u8>, AllocError>
    requires bit { bit_behind_syntax_indicator < 2 }
    requires header { IsHeader header.now }
    requires short { length body.now + 9 ≤ MAX_SECTION_LENGTH }
    ensures bytes { IfOk result (λ v.
        v.items ≡ section_bytes table_id bit_behind_syntax_indicator header.now body.now) }
    ensures crc { IfOk result (λ v. crc_of v.items ≡ 0) }
    ensures length { IfOk result (λ v. length v.items ≡ length body.now + 12) }
{
    let count = body.len() + 9;
    let current = u8::from(header.current_next_indicator);
    let head = [
        table_id,
        0xB0 + bit_behind_syntax_indicator * 64 + (count / 256) as u8,
        (count % 256) as u8,
        (header.table_id_extension / 256) as u8,
        (header.table_id_extension % 256) as u8,
        0xC0 + header.version_number * 2 + current,
        header.section_number,
        header.last_section_number,
    ];
    let mut section = Vec::with_capacity(alloc, count + 3)?;
    section.extend_from_slice(&head)?;
    section.extend_from_slice(body)?;
    let mut check = [0; 4];
    BigEndian::write_u32(&mut check, crc(&section));
    section.extend_from_slice(&check)?;
    Ok(section)
}
