//! The choice of the services.

ghost use Rattle.std.specs.Prelude.{◌≡◌, ◌<◌, ◌==◌, None, Some, ◌∷◌, IfOk, IfErr, IfSome, map, filter, length};
ghost use Rattle.std.specs.Prelude.{slice_get, option_map, option_copied};
ghost use Rattle.std.specs.Option.{option_flatten};
ghost use Rattle.std.specs.List.{filter_map, flat_map, list_any, position_from};
ghost use Rattle.tables.specs.Sdt.{SdtValue, IsSdtRow};
ghost use Rattle.acquire.specs.Seen.{findings_of};
ghost use Rattle.request.specs.Request.{service_value};
ghost use Rattle.request.specs.Request.{ServiceValue};
ghost use Rattle.request.specs.declared.service.Service.{Service};
ghost use Rattle.selection.specs.ChosenView.{chosen_value};
ghost use Rattle.selection.specs.Faults.{choice_fault_of};
ghost use Rattle.selection.specs.Chosen.{beside, found_pmt, row_of_program, found_row, service_type_of};
ghost use Rattle.selection.specs.Chosen.{chosen_service, chosen_of, AreServicesOf, lacks_program, lacks_row};

use crate::chosen_service::ChosenService;
use crate::chosen_services::ChosenServices;
use acquire::Found;
use request::{MAX_SERVICES, PlanFault, Request, Service};
use tables::{Pmt, Sdt, SdtRow, ServiceDescriptor};

/// The place of the service's program among those that are wanted of its input.
fn place_of(services: &[Service], wanted: &Service) -> Option<usize>
    ensures { result ≡ position_from (λ (s : Service). s.program == wanted.now.program) 0
        (filter (λ (s : Service). s.input == wanted.now.input) services.now) }
{
    services
        .iter()
        .filter(|service| service.input == wanted.input)
        .position(|service| service.program == wanted.program)
}

/// The first row with this service_id in the sections of an SDT.
fn find_row(sections: &[Sdt], service_id: u16) -> Option<&SdtRow>
    ensures row { option_copied result
        ≡ row_of_program service_id (flat_map (λ (s : SdtValue). s.rows) sections.now) }
    ensures fits { IfSome result (λ row. IsSdtRow row.now) }
{
    sections
        .iter()
        .flat_map(|section| section.rows())
        .find(|row| row.service_id == service_id)
}

/// The PMT at this place.
fn pmt_at(pmts: &[Option<Pmt>], place: usize) -> Option<&Pmt>
    ensures { option_copied result ≡ option_flatten (slice_get pmts.now place) }
{
    pmts.get(place)?.as_ref()
}

/// The PMT of the service, where one stands for each program that is wanted of its input.
fn find_beside<'a>(
    services: &[Service],
    wanted: &Service,
    pmts: &'a [Option<Pmt>],
) -> Option<&'a Pmt>
    ensures { option_copied result ≡ beside wanted.now.program
        (map (λ (s : ServiceValue). s.program)
        (filter (λ (s : ServiceValue). s.input == wanted.now.input)
        (map service_value services.now))) pmts.now }
{
    let place = place_of(services, wanted)?;
    pmt_at(pmts, place)
}

/// The input's PMT of the service.
fn find_pmt<'a>(request: &Request, found: &'a [Found], service: &Service) -> Option<&'a Pmt>
    ensures { option_copied result
        ≡ found_pmt request.now (map findings_of found.now) (service_value service.now) }
{
    let found = found.get(service.input)?;
    find_beside(request.services(), service, &found.pmts)
}

/// The row of the service in the input's SDT.
fn find_service_row<'a>(found: &'a [Found], service: &Service) -> Option<&'a SdtRow>
    ensures row { option_copied result
        ≡ found_row (map findings_of found.now) (service_value service.now) }
    ensures fits { IfSome result (λ row. IsSdtRow row.now) }
{
    let sections = found.get(service.input)?.sdt.as_ref()?;
    find_row(sections, service.program)
}

/// service_type of the first service descriptor in the row whose lengths fill it.
fn service_type(row: &SdtRow) -> Option<u8>
    ensures { result ≡ service_type_of row.now }
{
    let descriptor = ServiceDescriptor::first_in(&row.descriptors)?;
    Some(descriptor.service_type)
}

/// The service with what was found of it, where its program and its row were.
fn choose_service<'a>(
    request: &Request,
    found: &'a [Found],
    service: &'a Service,
) -> Option<ChosenService<'a>>
    ensures chosen { option_map chosen_value result
        ≡ chosen_service request.now (map findings_of found.now) (service_value service.now) }
    ensures fits { IfSome result (λ c. IsSdtRow c.row.now) }
{
    let pmt = find_pmt(request, found, service)?;
    let row = find_service_row(found, service)?;
    let service_type = service_type(row)?;
    Some(ChosenService {
        service,
        pmt,
        row,
        service_type,
    })
}

/// Whether the input has no described row of the service.
fn lacks_row(found: &[Found], service: &Service) -> bool
    ensures { result ≡ lacks_row (map findings_of found.now) (service_value service.now) }
{
    find_service_row(found, service)
        .and_then(service_type)
        .is_none()
}

/// Whether the program of one of the services was not found in its input.
fn has_no_program(request: &Request, found: &[Found], services: &[Service]) -> bool
    ensures { result ≡ list_any (λ (s : Service).
        lacks_program request.now (map findings_of found.now) (service_value s)) services.now }
{
    services
        .iter()
        .any(|service| find_pmt(request, found, service).is_none())
}

/// Whether the input of one of the services has no described row of it.
fn has_no_row(found: &[Found], services: &[Service]) -> bool
    ensures { result ≡ list_any (λ (s : Service).
        lacks_row (map findings_of found.now) (service_value s)) services.now }
{
    services.iter().any(|service| lacks_row(found, service))
}

/// The first service and those of the others whose program and row were found.
fn collect_chosen<'a>(
    request: &Request,
    found: &'a [Found],
    first: ChosenService<'a>,
    others: &'a [Service],
) -> ChosenServices<'a>
    requires room { length others.now < MAX_SERVICES }
    requires row { IsSdtRow first.row.now }
    ensures { result ≡ chosen_value first.entry ∷ filter_map
        (chosen_service request.now (map findings_of found.now)) (map service_value others.now) }
{
    let mut chosen = ChosenServices::new(first);
    for service in others {
        if let Some(service) = choose_service(request, found, service) {
            chosen.push(service);
        }
    }
    chosen
}

/// The services of the plan with their programs and rows, in the plan's order. What was found in an
/// input stands at the input's place, its PMTs in the order of the services of that input. It takes
/// no memory.
///
/// `NoProgram` where the program of one of the services was not found in its input; else `NoSdtRow`
/// where the SDT of one of the inputs has no row of a service, or the first such row has no service
/// descriptor whose lengths fill it.
pub fn choose<'a>(request: &'a Request, found: &'a [Found]) -> Result<ChosenServices<'a>, PlanFault>
    ensures chosen { IfOk result (λ chosen.
        chosen ≡ chosen_of request.now (map findings_of found.now)) }
    ensures services { IfOk result (AreServicesOf request.now) }
    ensures no_fault { IfOk result (λ _.
        choice_fault_of request.now (map findings_of found.now) ≡ None) }
    ensures fault { IfErr result (λ e.
        choice_fault_of request.now (map findings_of found.now) ≡ Some e) }
{
    // That there are 1 to 16 services is known with it.
    request.known();
    let services = request.services();
    if has_no_program(request, found, services) {
        return Err(PlanFault::NoProgram);
    }
    if has_no_row(found, services) {
        return Err(PlanFault::NoSdtRow);
    }
    let Some((first, others)) = services.split_first() else {
        unreachable!()
    };
    let Some(first) = choose_service(request, found, first) else {
        unreachable!()
    };
    Ok(collect_chosen(request, found, first, others))
}
