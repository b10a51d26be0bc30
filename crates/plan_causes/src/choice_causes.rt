//! The services that were not found in their inputs.

ghost use Rattle.std.specs.Prelude.{◌≡◌, ◌==◌, if◌then◌else◌, None, Some, IfSome, is_none, is_some, map, filter, find};
ghost use Rattle.std.specs.Prelude.{slice_get, option_map, option_copied};
ghost use Rattle.std.specs.Option.{option_flatten};
ghost use Rattle.std.specs.List.{flat_map, list_any, position_from};
ghost use Rattle.tables.specs.Sdt.{SdtValue};
ghost use Rattle.acquire.specs.Seen.{findings_of};
ghost use Rattle.request.specs.Request.{ServiceValue, service_value};
ghost use Rattle.request.specs.declared.plan_fault.PlanFault.TheVariants.{NoProgram, NoSdtRow};
ghost use Rattle.request.specs.declared.service.Service.{Service};
ghost use Rattle.selection.specs.Chosen.{beside, found_pmt, row_of_program, lacks_program, lacks_row};
ghost use Rattle.selection.specs.Faults.{choice_fault_of};
ghost use Rattle.plan_causes.specs.Causes.{sdt_of, IsRowLack, IsCauseOf, fault_of};

use crate::plan_cause::PlanCause;
use crate::row_lack::RowLack;
use crate::service_numbers::ServiceNumbers;
use acquire::Found;
use request::{Request, Service};
use tables::{Pmt, Sdt, SdtRow, ServiceDescriptor};

/// The place of the service's program among those that are wanted of its input.
fn place_of(services: &[Service], wanted: &Service) -> Option<usize>
    ensures { result ≡ position_from (λ (s : Service). s.program == wanted.now.program) 0
        (filter (λ (s : Service). s.input == wanted.now.input) services.now) }
{
    services
        .iter()
        .filter(|service| service.input == wanted.input)
        .position(|service| service.program == wanted.program)
}

/// Whether there is a PMT at this place.
fn is_pmt_at(pmts: &[Option<Pmt>], place: usize) -> bool
    ensures { result ≡ is_some (option_flatten (slice_get pmts.now place)) }
{
    match pmts.get(place) {
        Some(pmt) => pmt.is_some(),
        None => false,
    }
}

/// Whether there is no PMT of the service, where one stands for each program that is wanted of its input.
fn has_none_beside(services: &[Service], wanted: &Service, pmts: &[Option<Pmt>]) -> bool
    ensures { result ≡ is_none (beside wanted.now.program
        (map (λ (s : ServiceValue). s.program)
        (filter (λ (s : ServiceValue). s.input == wanted.now.input)
        (map service_value services.now))) pmts.now) }
{
    match place_of(services, wanted) {
        Some(place) => !is_pmt_at(pmts, place),
        None => true,
    }
}

/// Whether the program of the service was not found in its input.
fn lacks_program(request: &Request, found: &[Found], service: &Service) -> bool
    ensures { result
        ≡ lacks_program request.now (map findings_of found.now) (service_value service.now) }
{
    match found.get(service.input) {
        Some(found) => has_none_beside(request.services(), service, &found.pmts),
        None => true,
    }
}

/// The sections of the input's SDT, where a complete one was found.
fn find_sdt(found: &[Found], input: usize) -> Option<&[Sdt]>
    ensures { option_map (λ sdts. flat_map (λ (s : SdtValue). s.rows) sdts.now) result
        ≡ sdt_of (map findings_of found.now) input }
{
    let sections = found.get(input)?.sdt.as_ref()?;
    Some(sections)
}

/// The first row with this service_id in the sections of an SDT.
fn find_row(sections: &[Sdt], service_id: u16) -> Option<&SdtRow>
    ensures { option_copied result
        ≡ row_of_program service_id (flat_map (λ (s : SdtValue). s.rows) sections.now) }
{
    sections
        .iter()
        .flat_map(|section| section.rows())
        .find(|row| row.service_id == service_id)
}

/// What is lacking of the service's row in its input's SDT.
fn row_lack(found: &[Found], service: &Service) -> Option<RowLack>
    ensures lack { IfSome result (IsRowLack (map findings_of found.now) (service_value service.now)) }
    ensures some { is_some result ≡ lacks_row (map findings_of found.now) (service_value service.now) }
{
    let Some(sections) = find_sdt(found, service.input) else {
        return Some(RowLack::NoSdt);
    };
    let Some(row) = find_row(sections, service.program) else {
        return Some(RowLack::NoRow);
    };
    match ServiceDescriptor::first_in(&row.descriptors) {
        Some(_) => None,
        None => Some(RowLack::NoDescriptor),
    }
}

/// The first service whose program was not found in its input.
fn find_without_program<'a>(
    request: &Request,
    found: &[Found],
    services: &'a [Service],
) -> Option<&'a Service>
    ensures { option_copied result ≡ find (λ (s : Service).
        lacks_program request.now (map findings_of found.now) (service_value s)) services.now }
{
    services
        .iter()
        .find(|service| lacks_program(request, found, service))
}

/// The first service that is not described in its input.
fn find_without_row<'a>(found: &[Found], services: &'a [Service]) -> Option<&'a Service>
    ensures { option_copied result ≡ find (λ (s : Service).
        lacks_row (map findings_of found.now) (service_value s)) services.now }
{
    services
        .iter()
        .find(|service| row_lack(found, service).is_some())
}

/// The first service whose program was not found in its input.
fn program_cause(request: &Request, found: &[Found]) -> Option<PlanCause>
    ensures fault { option_map fault_of result
        ≡ (if list_any (lacks_program request.now (map findings_of found.now)) request.now.services
        then Some NoProgram else None) }
    ensures cause { IfSome result (IsCauseOf request.now (map findings_of found.now)) }
{
    let service = find_without_program(request, found, request.services())?;
    Some(PlanCause::NoProgram(ServiceNumbers::of(service)))
}

/// The first service that is not described in its input, and what is lacking.
fn row_cause(request: &Request, found: &[Found]) -> Option<PlanCause>
    ensures fault { option_map fault_of result
        ≡ (if list_any (lacks_row (map findings_of found.now)) request.now.services
        then Some NoSdtRow else None) }
    ensures cause { IfSome result (IsCauseOf request.now (map findings_of found.now)) }
{
    let service = find_without_row(found, request.services())?;
    let lack = row_lack(found, service)?;
    Some(PlanCause::NoSdtRow(ServiceNumbers::of(service), lack))
}

/// The cause of the fault of the choice: the first service whose program was not found, else the first that is not described.
#[tactic(auto, unfolding(selection::specs::Faults::choice_fault_of))]
pub fn choice_cause(request: &Request, found: &[Found]) -> Option<PlanCause>
    ensures fault { option_map fault_of result
        ≡ choice_fault_of request.now (map findings_of found.now) }
    ensures cause { IfSome result (IsCauseOf request.now (map findings_of found.now)) }
{
    match program_cause(request, found) {
        Some(cause) => Some(cause),
        None => row_cause(request, found),
    }
}
