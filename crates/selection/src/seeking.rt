//! What a plan seeks in its inputs.

ghost use Rattle.std.specs.Prelude.{◌≡◌, ◌==◌, [], false, map, filter, IfOk};
ghost use Rattle.acquire.specs.Seen.{HasSeen};
ghost use Rattle.request.specs.declared.service.Service.{Service};
ghost use Rattle.selection.specs.Chosen.{programs_of};

use acquire::Acquire;
use request::{Request, Service};
use std::alloc::{AllocError, Global};

/// The programs of the services of this input, in their order.
fn wanted_programs(
    alloc: Global,
    services: &[Service],
    input: usize,
) -> Result<Vec<u16>, AllocError>
    ensures { IfOk result (λ v. v.items ≡ map (λ (s : Service). s.program)
        (filter (λ (s : Service). s.input == input) services.now)) }
{
    services
        .iter()
        .filter(|service| service.input == input)
        .map(|service| service.program)
        .collect(alloc)
}

/// Acquisition of what the services of an input need, to which no packet was pushed yet: the PMTs
/// of their programs in the order of the services, and the SDT. An input that no service uses wants
/// nothing. It fails only for want of memory.
pub fn seek(alloc: Global, request: &Request, input: usize) -> Result<Acquire, AllocError>
    ensures seen { IfOk result (λ acquire. HasSeen (programs_of request.now input) acquire []) }
    ensures is_refused { IfOk result (λ acquire. acquire.is_refused ≡ false) }
{
    let programs = wanted_programs(alloc, request.services(), input)?;
    Acquire::new(alloc, &programs)
}
