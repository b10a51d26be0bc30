//! The cause of the fault of a plan's text.

ghost use Rattle.std.specs.Prelude.{◌≡◌, Some, true, IfOk, IfSome, is_some};
ghost use Rattle.request.specs.Parts.{parts_value};
ghost use Rattle.request.specs.Request.{request_fault_of, has_bad_range, has_service_twice, has_pid_twice};
ghost use Rattle.request.specs.declared.plan_fault.PlanFault.TheVariants.{OutOfRange, ServiceTaken, PidTaken};
ghost use Rattle.request_causes.specs.Causes.{IsCauseOf, fault_of};

use crate::pid_causes::{find_service_twice, pid_cause};
use crate::range_causes::range_cause;
use crate::request_cause::RequestCause;
use request::{Parts, PlanFault};
use std::alloc::{AllocError, Global};

/// What is out of its range.
fn out_of_range_cause(alloc: Global, parts: &Parts) -> Result<Option<RequestCause>, AllocError>
    ensures cause { IfOk result (λ found. IfSome found (IsCauseOf (parts_value parts.now))) }
    ensures fault { IfOk result (λ found. IfSome found (λ cause. fault_of cause ≡ OutOfRange)) }
    ensures some { IfOk result (λ found. is_some found ≡ has_bad_range (parts_value parts.now)) }
{
    match range_cause(alloc, parts)? {
        Some(cause) => Ok(Some(RequestCause::OutOfRange(cause))),
        None => Ok(None),
    }
}

/// The first two services with one number in the output.
fn service_cause(alloc: Global, parts: &Parts) -> Result<Option<RequestCause>, AllocError>
    ensures cause { IfOk result (λ found. IfSome found (IsCauseOf (parts_value parts.now))) }
    ensures fault { IfOk result (λ found. IfSome found (λ cause. fault_of cause ≡ ServiceTaken)) }
    ensures some { IfOk result (λ found. is_some found
        ≡ has_service_twice (parts_value parts.now).services) }
{
    match find_service_twice(alloc, &parts.services)? {
        Some(repeat) => Ok(Some(RequestCause::ServiceTaken {
            first: repeat.first,
            second: repeat.second,
            number: repeat.number,
        })),
        None => Ok(None),
    }
}

/// Where a PID is used for two things.
fn taken_cause(alloc: Global, parts: &Parts) -> Result<Option<RequestCause>, AllocError>
    ensures cause { IfOk result (λ found. IfSome found (IsCauseOf (parts_value parts.now))) }
    ensures fault { IfOk result (λ found. IfSome found (λ cause. fault_of cause ≡ PidTaken)) }
    ensures some { IfOk result (λ found. has_pid_twice (parts_value parts.now).services ≡ true
        → is_some found ≡ true) }
{
    match pid_cause(alloc, &parts.services)? {
        Some(cause) => Ok(Some(RequestCause::PidTaken(cause))),
        None => Ok(None),
    }
}

/// A cause of this fault of a plan of these parts. There is one wherever `Request::new` answers the fault, and none of one that
/// it never answers. It fails only for want of memory.
pub fn cause_of(
    alloc: Global,
    parts: &Parts,
    fault: PlanFault,
) -> Result<Option<RequestCause>, AllocError>
    ensures cause { IfOk result (λ found. IfSome found (IsCauseOf (parts_value parts.now))) }
    ensures fault { IfOk result (λ found. IfSome found (λ cause. fault_of cause ≡ fault)) }
    ensures some { IfOk result (λ found. request_fault_of (parts_value parts.now) ≡ Some fault
        → is_some found ≡ true) }
{
    match fault {
        PlanFault::OutOfRange => out_of_range_cause(alloc, parts),
        PlanFault::ServiceTaken => service_cause(alloc, parts),
        PlanFault::PidTaken => taken_cause(alloc, parts),
        _ => Ok(None),
    }
}
