//! The network name descriptor.

ghost use Rattle.std.specs.Prelude.{◌≡◌, ◌≤◌, ◌++◌, length, MatchResult};
ghost use Rattle.tables.specs.NetworkNameDescriptor.{network_name_bytes};

use crate::descriptor_loop::DescriptorLoop;
use std::alloc::AllocError;

/// The descriptor_tag.
const NETWORK_NAME_DESCRIPTOR: u8 = 0x40;

/// Adds a network name descriptor (EN 300 468, 6.2.27) behind the others. The name has at most 255
/// bytes. It fails only for want of memory, and changes nothing then.
pub fn push_network_name(descriptors: &mut DescriptorLoop, name: &[u8]) -> Result<(), AllocError>
    requires { length name.now ≤ 255 }
    ensures { MatchResult result
        (λ _. descriptors.new ≡ descriptors.old ++ network_name_bytes name.now)
        (λ _. descriptors.new ≡ descriptors.old) }
{
    descriptors.push(NETWORK_NAME_DESCRIPTOR, name)
}
