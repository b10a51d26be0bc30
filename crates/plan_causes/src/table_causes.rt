//! The tables that have no room in their sections or in their rounds.

ghost use Rattle.std.specs.Prelude.{◌≡◌, ◌/◌, ◌<◌, ◌≤◌, min, nat_lt, None, Some, IfSome, is_some, find, option_copied, map, option_map};
ghost use Rattle.rounds.specs.Rounds.{fast_limit_of, sdt_limit_of, rounds_fault_of};
ghost use Rattle.tables.specs.Nit.{nit_section_length_of};
ghost use Rattle.tables.specs.Sdt.{rows_room};
ghost use Rattle.request.specs.Request.{IsRequest};
ghost use Rattle.selection.specs.Chosen.{AreServicesOf};
ghost use Rattle.selection.specs.ChosenView.{chosen_value};
ghost use Rattle.selection.specs.declared.chosen_service.ChosenService.{ChosenService};
ghost use Rattle.output_tables.specs.Output.{output_nit, row_length, is_too_large};
ghost use Rattle.output_tables.specs.Room.{HaveRoom};
ghost use Rattle.plan.specs.Build.{output_rounds, fault_of_rounds, chosen_fault_of};
ghost use Rattle.plan_causes.specs.Causes.{IsLarge, IsCauseAmong, fault_of};

use crate::large_table::LargeTable;
use crate::plan_cause::PlanCause;
use crate::program_causes::program_cause;
use crate::service_numbers::ServiceNumbers;
use output_tables::{fast_count, is_too_large, slow_count};
use request::Request;
use rounds::{gap, half_second, two_seconds};
use section::MAX_SECTION_LENGTH;
use selection::ChosenService;
use tables::{MAX_SDT_ROWS_LENGTH, SdtRow};

/// The bytes of a row of an SDT in front of its descriptors.
const ROW_HEAD_LENGTH: usize = 5;

/// Whether no section of the SDT holds the row.
fn is_row_too_large(row: &SdtRow) -> bool
    ensures { result ≡ nat_lt rows_room (row_length row.now) }
{
    row.descriptors.bytes().len() > MAX_SDT_ROWS_LENGTH - ROW_HEAD_LENGTH
}

/// section_length of the NIT with a list of so many services.
fn nit_section_length(request: &Request, chosen: &[ChosenService<'_>]) -> usize
    requires request { IsRequest request.now }
    requires services { AreServicesOf request.now (map chosen_value chosen.now) }
    ensures { result ≡ nit_section_length_of (output_nit request.now (map chosen_value chosen.now)) }
{
    let list_length = 2 + 3 * chosen.len();
    let name_length = 2 + request.network_name().len();
    19 + name_length + list_length + request.transport_descriptors().len()
}

/// The first service whose row no section of the SDT holds.
fn find_large_row<'a, 'b>(chosen: &'b [ChosenService<'a>]) -> Option<&'b ChosenService<'a>>
    ensures { option_copied result
        ≡ find (λ (c : ChosenService). nat_lt rows_room (row_length c.row.now)) chosen.now }
{
    chosen.iter().find(|service| is_row_too_large(service.row))
}

/// What is too large: the NIT, else the first row of the SDT that is, else a PMT.
fn large_table(request: &Request, chosen: &[ChosenService<'_>]) -> Option<LargeTable>
    requires request { IsRequest request.now }
    requires services { AreServicesOf request.now (map chosen_value chosen.now) }
    ensures table { IfSome result (IsLarge request.now (map chosen_value chosen.now)) }
    ensures some { is_some result ≡ is_too_large request.now (map chosen_value chosen.now) }
    ensures room { result ≡ None → HaveRoom request.now (map chosen_value chosen.now) }
{
    if !is_too_large(request, chosen) {
        return None;
    }
    let length = nit_section_length(request, chosen);
    if length > MAX_SECTION_LENGTH {
        return Some(LargeTable::Nit(length));
    }
    match find_large_row(chosen) {
        Some(service) => Some(LargeTable::SdtRow(ServiceNumbers::of(service.service))),
        None => Some(LargeTable::Pmt),
    }
}

/// The longest period in which PAT and SDT come often enough, where the SDT and the NIT have so many packets.
fn longest_period(rate: u64, slow_len: usize) -> u64
    requires rate { rate ≤ 100000000 }
    requires some { 1 ≤ slow_len }
    ensures { result ≡ min (fast_limit_of rate) (sdt_limit_of rate / slow_len) }
{
    half_second(rate).min(two_seconds(rate) / slow_len as u64)
}

/// The period, where it is too short for a round or too long for the limits of repetition.
fn period_cause(request: &Request, chosen: &[ChosenService<'_>]) -> Option<PlanCause>
    requires request { IsRequest request.now }
    requires services { AreServicesOf request.now (map chosen_value chosen.now) }
    requires room { HaveRoom request.now (map chosen_value chosen.now) }
    ensures fault { option_map fault_of result
        ≡ fault_of_rounds (rounds_fault_of (output_rounds request.now (map chosen_value chosen.now))) }
    ensures cause { IfSome result (IsCauseAmong request.now (map chosen_value chosen.now)) }
{
    let period = request.period();
    let shortest = (fast_count(request, chosen) as u64 + 1) * gap(request.rate());
    if period < shortest {
        return Some(PlanCause::RoundTooLong { period, shortest });
    }
    let longest = longest_period(request.rate(), slow_count(request, chosen));
    if longest < period {
        return Some(PlanCause::PeriodTooLong { period, longest });
    }
    None
}

/// The cause of the fault of the chosen services: of their programs, else of the size of their tables, else of the period.
#[tactic(auto, unfolding(plan::specs::Build::chosen_fault_of))]
pub fn chosen_cause(request: &Request, chosen: &[ChosenService<'_>]) -> Option<PlanCause>
    requires request { IsRequest request.now }
    requires services { AreServicesOf request.now (map chosen_value chosen.now) }
    ensures fault { option_map fault_of result
        ≡ chosen_fault_of request.now (map chosen_value chosen.now) }
    ensures cause { IfSome result (IsCauseAmong request.now (map chosen_value chosen.now)) }
{
    if let Some(cause) = program_cause(request, chosen) {
        return Some(cause);
    }
    match large_table(request, chosen) {
        Some(table) => Some(PlanCause::TooLarge(table)),
        None => period_cause(request, chosen),
    }
}
