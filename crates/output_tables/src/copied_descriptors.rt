//! Copies of descriptor loops.

ghost use Rattle.std.specs.Prelude.{◌≡◌, true, IfOk};
ghost use Rattle.tables.specs.Descriptors.{are_whole};

use std::alloc::{AllocError, Global};
use tables::DescriptorLoop;

/// A loop of the same descriptors. It fails only for want of memory.
pub fn copied_descriptors(
    alloc: Global,
    descriptors: &DescriptorLoop,
) -> Result<DescriptorLoop, AllocError>
    ensures value { IfOk result (λ copy. copy ≡ descriptors.now) }
    ensures whole { IfOk result (λ copy. are_whole 0 copy ≡ true) }
{
    let bytes = Vec::from_slice(alloc, descriptors.bytes())?;
    Ok(DescriptorLoop::from_bytes(bytes).unwrap())
}
