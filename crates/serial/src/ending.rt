//! What a run leaves of its inputs.

ghost use Rattle.std.specs.Prelude.{◌≡◌, map, IfOk};
ghost use Rattle.serial.specs.Ending.{ended_of};

use inlets::Entry;
use outcome::Ended;
use reading::{PacketReader, Source};
use std::alloc::{AllocError, Global};

/// What the run leaves of each input, in their order.
pub(crate) fn end_inputs<R: Source + Drop>(
    alloc: Global,
    inputs: Vec<Entry<PacketReader<R>>>,
) -> Result<Vec<Ended<R>>, AllocError>
    ensures { IfOk result (λ ended. ended.items ≡ map ended_of inputs.items) }
{
    let mut ended = Vec::new(alloc);
    for input in inputs {
        ended.push(Ended {
            report: input.inlet.report(),
            is_closed: input.is_closed,
            lent: input.inlet.into_source(),
        })?;
    }
    Ok(ended)
}
