//! The service list descriptor.

ghost use Rattle.std.specs.Prelude.{◌≡◌, ◌*◌, ◌≤◌, ◌++◌, length, MatchResult};
ghost use Rattle.std.specs.List.{flat_map};
ghost use Rattle.tables.specs.ServiceListDescriptor.{entry_bytes, service_list_bytes};

use crate::descriptor_loop::DescriptorLoop;
use crate::service_list_entry::ServiceListEntry;
use arrayvec::ArrayVec;
use std::alloc::AllocError;

/// The descriptor_tag.
const SERVICE_LIST_DESCRIPTOR: u8 = 0x41;

fn entry_bytes(entry: &ServiceListEntry) -> [u8; 3]
    ensures { result ≡ entry_bytes entry.now }
{
    [
        (entry.service_id / 256) as u8,
        (entry.service_id % 256) as u8,
        entry.service_type,
    ]
}

/// The body of the descriptor.
fn list_bytes(entries: &[ServiceListEntry]) -> ArrayVec<u8, 255>
    requires { length entries.now ≤ 85 }
    ensures { result.items ≡ flat_map entry_bytes entries.now }
{
    let mut body = ArrayVec::new();
    for entry in entries {
        body.try_extend_from_slice(&entry_bytes(entry)).unwrap();
    }
    body
}

/// Adds a service list descriptor (EN 300 468, 6.2.35) behind the others, for at most 85 services.
/// It fails only for want of memory, and changes nothing then.
pub fn push_service_list(
    descriptors: &mut DescriptorLoop,
    entries: &[ServiceListEntry],
) -> Result<(), AllocError>
    requires { length entries.now ≤ 85 }
    ensures { MatchResult result
        (λ _. descriptors.new ≡ descriptors.old ++ service_list_bytes entries.now)
        (λ _. descriptors.new ≡ descriptors.old) }
{
    descriptors.push(SERVICE_LIST_DESCRIPTOR, &list_bytes(entries))
}
