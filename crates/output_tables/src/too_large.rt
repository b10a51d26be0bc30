//! Whether the output's tables have room in their sections.

ghost use Rattle.std.specs.Prelude.{◌≡◌, ◌+◌, ◌<◌, nat_lt, map, None, IfSome};
ghost use Rattle.std.specs.Bool.{OnFalse};
ghost use Rattle.std.specs.List.{list_any};
ghost use Rattle.request.specs.Request.{IsRequest};
ghost use Rattle.tables.specs.Pmt.{pmt_section_length_of};
ghost use Rattle.tables.specs.Nit.{nit_section_length_of};
ghost use Rattle.selection.specs.ChosenView.{chosen_value};
ghost use Rattle.selection.specs.declared.chosen_service.ChosenService.{ChosenService};
ghost use Rattle.tables.specs.Sdt.{rows_room};
ghost use Rattle.output_tables.specs.Output.{output_nit, row_length, is_too_large};
ghost use Rattle.selection.specs.Chosen.{AreServicesOf};
ghost use Rattle.output_tables.specs.Room.{HaveRoom};

use request::Request;
use section::MAX_SECTION_LENGTH;
use selection::ChosenService;
use tables::{MAX_SDT_ROWS_LENGTH, Pmt, SdtRow};

/// The bytes of a row of a PMT or an SDT in front of its descriptors.
pub const ROW_HEAD_LENGTH: usize = 5;

/// What is left in the section of a PMT; none where it is too large.
pub fn pmt_room(pmt: &Pmt) -> Option<usize>
    ensures value { IfSome result (λ room. room + pmt_section_length_of pmt.now ≡ MAX_SECTION_LENGTH) }
    ensures too_large { result ≡ None → MAX_SECTION_LENGTH < pmt_section_length_of pmt.now }
{
    let info = pmt.program_info().bytes();
    let mut room = (MAX_SECTION_LENGTH - 13).checked_sub(info.len())?;
    let rows = pmt.rows();
    for row in rows {
        room = room
            .checked_sub(ROW_HEAD_LENGTH)?
            .checked_sub(row.descriptors.bytes().len())?;
    }
    Some(room)
}

/// Whether no section holds the PMT.
fn is_pmt_too_large(pmt: &Pmt) -> bool
    ensures { result ≡ nat_lt 1021 (pmt_section_length_of pmt.now) }
{
    pmt_room(pmt).is_none()
}

/// Whether no section of the SDT holds the row.
fn is_row_too_large(row: &SdtRow) -> bool
    ensures { result ≡ nat_lt rows_room (row_length row.now) }
{
    row.descriptors.bytes().len() > MAX_SDT_ROWS_LENGTH - ROW_HEAD_LENGTH
}

/// section_length of the NIT with a list of so many services.
pub fn nit_section_length(request: &Request, chosen: &[ChosenService<'_>]) -> usize
    requires request { IsRequest request.now }
    requires services { AreServicesOf request.now (map chosen_value chosen.now) }
    ensures { result ≡ nit_section_length_of (output_nit request.now (map chosen_value chosen.now)) }
{
    let list_length = 2 + 3 * chosen.len();
    let name_length = 2 + request.network_name().len();
    19 + name_length + list_length + request.transport_descriptors().len()
}

/// Whether no section holds the NIT.
fn is_nit_too_large(request: &Request, chosen: &[ChosenService<'_>]) -> bool
    requires request { IsRequest request.now }
    requires services { AreServicesOf request.now (map chosen_value chosen.now) }
    ensures { result
        ≡ nat_lt 1021 (nit_section_length_of (output_nit request.now (map chosen_value chosen.now))) }
{
    nit_section_length(request, chosen) > MAX_SECTION_LENGTH
}

/// Whether no section holds the PMT of one of the services.
fn has_large_pmt(chosen: &[ChosenService<'_>]) -> bool
    ensures { result ≡ list_any (λ (c : ChosenService). nat_lt 1021 (pmt_section_length_of c.pmt.now)) chosen.now }
{
    chosen.iter().any(|service| is_pmt_too_large(service.pmt))
}

/// Whether no section of the SDT holds the row of one of the services.
fn has_large_row(chosen: &[ChosenService<'_>]) -> bool
    ensures { result ≡ list_any (λ (c : ChosenService). nat_lt rows_room (row_length c.row.now)) chosen.now }
{
    chosen.iter().any(|service| is_row_too_large(service.row))
}

/// Whether no section holds one of the PMTs, the NIT or a row of the SDT: section_length is at most 1,021 (ISO/IEC
/// 13818-1, 2.4.4; EN 300 468, 5.2). The PAT always has room. No table is made.
pub fn is_too_large(request: &Request, chosen: &[ChosenService<'_>]) -> bool
    requires request { IsRequest request.now }
    requires services { AreServicesOf request.now (map chosen_value chosen.now) }
    ensures value { result ≡ is_too_large request.now (map chosen_value chosen.now) }
    ensures room { OnFalse result (HaveRoom request.now (map chosen_value chosen.now)) }
{
    has_large_pmt(chosen) || is_nit_too_large(request, chosen) || has_large_row(chosen)
}
