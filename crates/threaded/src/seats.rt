//! What the workers of a run are made of.

ghost use Rattle.std.specs.Prelude.{◌≡◌, IfOk};
ghost use Rattle.std.specs.List.{zip};

use port::Port;
use std::alloc::{AllocError, Global};

/// The reader, the gate and the port of each input, in their order.
pub(crate) fn seats<R: Drop, G: Drop>(
    alloc: Global,
    readers: Vec<R>,
    gates: Vec<G>,
    ports: Vec<Port>,
) -> Result<Vec<((R, G), Port)>, AllocError>
    ensures { IfOk result (λ seats. seats.items ≡ zip (zip readers.items gates.items) ports.items) }
{
    readers.into_iter().zip(gates).zip(ports).collect(alloc)
}
