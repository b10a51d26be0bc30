//! Copies of a request's lists.

ghost use Rattle.std.specs.Prelude.{◌≡◌, IfOk, map};
ghost use Rattle.request.specs.Request.{input_value, service_value};

use crate::input::Input;
use crate::service::Service;
use std::alloc::{AllocError, Global};

/// An equal input. An `Err` is want of memory.
fn copy_input(alloc: Global, input: &Input) -> Result<Input, AllocError>
    ensures { IfOk result (λ copy. input_value copy ≡ input_value input.now) }
{
    Ok(Input {
        file: String::from_str(alloc, input.file.as_str())?,
        rate: input.rate,
        offset: input.offset,
        size: input.size,
    })
}

/// Equal inputs. An `Err` is want of memory.
pub fn copy_inputs(alloc: Global, inputs: &[Input]) -> Result<Vec<Input>, AllocError>
    ensures { IfOk result (λ copies. map input_value copies.items ≡ map input_value inputs.now) }
{
    let mut copies = Vec::with_capacity(alloc, inputs.len())?;
    for input in inputs {
        copies.push(copy_input(alloc, input)?)?;
    }
    Ok(copies)
}

/// An equal service. An `Err` is want of memory.
fn copy_service(alloc: Global, service: &Service) -> Result<Service, AllocError>
    ensures { IfOk result (λ copy. service_value copy ≡ service_value service.now) }
{
    Ok(Service {
        input: service.input,
        program: service.program,
        service: service.service,
        pmt: service.pmt,
        streams: service.streams.to_vec(alloc)?,
    })
}

/// Equal services. An `Err` is want of memory.
pub fn copy_services(alloc: Global, services: &[Service]) -> Result<Vec<Service>, AllocError>
    ensures { IfOk result (λ copies. map service_value copies.items
        ≡ map service_value services.now) }
{
    let mut copies = Vec::with_capacity(alloc, services.len())?;
    for service in services {
        copies.push(copy_service(alloc, service)?)?;
    }
    Ok(copies)
}
