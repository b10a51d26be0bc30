//! The PIDs that a plan uses twice, and the numbers of services.

ghost use Rattle.std.specs.Prelude.{◌≡◌, true, IfOk, IfSome, is_some, map, find};
ghost use Rattle.std.specs.List.{list_any};
ghost use Rattle.request.specs.Parts.{service_parts_value};
ghost use Rattle.request.specs.Request.{has_repeat, has_service_twice, names_pid_twice, has_pid_twice, output_pids};
ghost use Rattle.request_causes.specs.Causes.{AreBoth, AreRowsOf, IsPidCause, numbers_of, pmts_of, pids_of};

use crate::pid_cause::PidCause;
use crate::placed_row::PlacedRow;
use crate::repeat::{Repeat, find_repeat};
use crate::row_causes::{meeting_cause, odds_cause, pmt_cause};
use crate::rows::placed_rows;
use request::ServiceParts;
use std::alloc::{AllocError, Global};

/// The numbers of the services in the output.
fn service_numbers(alloc: Global, services: &[ServiceParts]) -> Result<Vec<i64>, AllocError>
    ensures { IfOk result (λ v. v.items ≡ numbers_of (map service_parts_value services.now)) }
{
    let mut numbers = Vec::new(alloc);
    for service in services {
        numbers.push(service.service)?;
    }
    Ok(numbers)
}

/// The first two services with one number in the output.
pub fn find_service_twice(
    alloc: Global,
    services: &[ServiceParts],
) -> Result<Option<Repeat>, AllocError>
    ensures both { IfOk result (λ found. IfSome found (λ r. AreBoth
        (numbers_of (map service_parts_value services.now)) r.first r.second r.number)) }
    ensures some { IfOk result (λ found. is_some found
        ≡ has_service_twice (map service_parts_value services.now)) }
{
    Ok(find_repeat(&service_numbers(alloc, services)?))
}

/// The PIDs of the PMTs in the output.
fn pmt_pids(alloc: Global, services: &[ServiceParts]) -> Result<Vec<i64>, AllocError>
    ensures { IfOk result (λ v. v.items ≡ pmts_of (map service_parts_value services.now)) }
{
    let mut pids = Vec::new(alloc);
    for service in services {
        pids.push(service.pmt)?;
    }
    Ok(pids)
}

/// The PIDs that a service names.
fn named_pids(alloc: Global, service: &ServiceParts) -> Result<Vec<i64>, AllocError>
    ensures { IfOk result (λ v. v.items ≡ pids_of (service_parts_value service.now)) }
{
    let mut pids = Vec::new(alloc);
    for stream in &service.streams {
        pids.push(stream.pid)?;
    }
    Ok(pids)
}

/// The first service that names a PID twice.
fn naming_cause(alloc: Global, services: &[ServiceParts]) -> Result<Option<PidCause>, AllocError>
    ensures cause { IfOk result (λ found. IfSome found
        (IsPidCause (map service_parts_value services.now))) }
    ensures some { IfOk result (λ found. is_some found
        ≡ list_any names_pid_twice (map service_parts_value services.now)) }
{
    for (service, parts) in services.iter().enumerate() {
        if let Some(repeat) = find_repeat(&named_pids(alloc, parts)?) {
            return Ok(Some(PidCause::NamedTwice {
                service,
                first: repeat.first,
                second: repeat.second,
                pid: repeat.number,
            }));
        }
    }
    Ok(None)
}

/// The first two PMTs with one PID.
fn pmts_cause(alloc: Global, services: &[ServiceParts]) -> Result<Option<PidCause>, AllocError>
    ensures cause { IfOk result (λ found. IfSome found
        (IsPidCause (map service_parts_value services.now))) }
    ensures some { IfOk result (λ found. is_some found
        ≡ has_repeat (pmts_of (map service_parts_value services.now))) }
{
    match find_repeat(&pmt_pids(alloc, services)?) {
        Some(repeat) => Ok(Some(PidCause::PmtsMeet {
            first: repeat.first,
            second: repeat.second,
            pid: repeat.number,
        })),
        None => Ok(None),
    }
}

/// Two uses of one output PID: two streams, else a stream and a PMT, else two PMTs.
fn use_cause(
    alloc: Global,
    services: &[ServiceParts],
    rows: &[PlacedRow],
) -> Result<Option<PidCause>, AllocError>
    requires { AreRowsOf (map service_parts_value services.now) rows.now }
    ensures cause { IfOk result (λ found. IfSome found
        (IsPidCause (map service_parts_value services.now))) }
    ensures some { IfOk result (λ found. has_repeat (output_pids (map service_parts_value services.now)) ≡ true
        → is_some found ≡ true) }
{
    if let Some(cause) = meeting_cause(services, rows) {
        return Ok(Some(cause));
    }
    if let Some(cause) = pmt_cause(services, rows) {
        return Ok(Some(cause));
    }
    pmts_cause(alloc, services)
}

/// Where a PID is used for two things: a service that names one twice, else two rows of one PID of an input that differ, else
/// two uses of an output PID. There is one wherever `Request::new` answers `PidTaken`.
pub fn pid_cause(alloc: Global, services: &[ServiceParts]) -> Result<Option<PidCause>, AllocError>
    ensures cause { IfOk result (λ found. IfSome found
        (IsPidCause (map service_parts_value services.now))) }
    ensures some { IfOk result (λ found. has_pid_twice (map service_parts_value services.now) ≡ true
        → is_some found ≡ true) }
{
    if let Some(cause) = naming_cause(alloc, services)? {
        return Ok(Some(cause));
    }
    let rows = placed_rows(alloc, services)?;
    if let Some(cause) = odds_cause(services, &rows) {
        return Ok(Some(cause));
    }
    use_cause(alloc, services, &rows)
}
