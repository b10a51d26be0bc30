//! The output's NIT.

ghost use Rattle.std.specs.Prelude.{◌≡◌, ◌≤◌, ◌++◌, true, map, length, IfOk};
ghost use Rattle.request.specs.Request.{IsRequest};
ghost use Rattle.tables.specs.Descriptors.{are_whole};
ghost use Rattle.tables.specs.NetworkNameDescriptor.{network_name_bytes};
ghost use Rattle.tables.specs.ServiceListDescriptor.{service_list_bytes};
ghost use Rattle.selection.specs.ChosenView.{chosen_value};
ghost use Rattle.output_tables.specs.Output.{output_nit, list_entry};
ghost use Rattle.selection.specs.Chosen.{AreServicesOf};

use crate::output_header::output_header;
use request::Request;
use selection::ChosenService;
use std::alloc::{AllocError, Global};
use tables::{DescriptorLoop, Nit, NitRow, ServiceListEntry, push_network_name, push_service_list};

/// The network name descriptor.
fn network_descriptors(alloc: Global, name: &str) -> Result<DescriptorLoop, AllocError>
    requires { length name.now ≤ 255 }
    ensures { IfOk result (λ descriptors. descriptors ≡ network_name_bytes name.now) }
{
    let mut descriptors = DescriptorLoop::new(alloc);
    push_network_name(&mut descriptors, name.as_bytes())?;
    Ok(descriptors)
}

/// Each service with its type.
fn list_entries(
    alloc: Global,
    chosen: &[ChosenService],
) -> Result<Vec<ServiceListEntry>, AllocError>
    ensures { IfOk result (λ v. v.items ≡ map list_entry (map chosen_value chosen.now)) }
{
    let mut entries = Vec::with_capacity(alloc, chosen.len())?;
    for service in chosen {
        entries.push_reserved(ServiceListEntry {
            service_id: service.service.service,
            service_type: service.service_type,
        });
    }
    Ok(entries)
}

/// The service list descriptor, and the plan's descriptors behind it.
fn transport_descriptors(
    alloc: Global,
    entries: &[ServiceListEntry],
    others: &[u8],
) -> Result<DescriptorLoop, AllocError>
    requires few { length entries.now ≤ 85 }
    requires whole { are_whole 0 others.now ≡ true }
    ensures { IfOk result (λ descriptors. descriptors ≡ service_list_bytes entries.now ++ others.now) }
{
    let mut list = DescriptorLoop::new(alloc);
    push_service_list(&mut list, entries)?;
    let mut bytes = Vec::from_slice(alloc, list.bytes())?;
    bytes.extend_from_slice(others)?;
    Ok(DescriptorLoop::from_bytes(bytes).unwrap())
}

/// The output's NIT: the network's name, and one row for this stream with the list of its services and the plan's
/// descriptors. It fails only for want of memory.
pub fn output_nit(
    alloc: Global,
    request: &Request,
    chosen: &[ChosenService],
) -> Result<Nit, AllocError>
    requires request { IsRequest request.now }
    requires services { AreServicesOf request.now (map chosen_value chosen.now) }
    ensures { IfOk result (λ nit. nit ≡ output_nit request.now (map chosen_value chosen.now)) }
{
    let network_descriptors = network_descriptors(alloc, request.network_name())?;
    let entries = list_entries(alloc, chosen)?;
    let descriptors = transport_descriptors(alloc, &entries, request.transport_descriptors())?;
    let mut rows = Vec::with_capacity(alloc, 1)?;
    rows.push_reserved(NitRow {
        transport_stream_id: request.transport_stream_id(),
        original_network_id: request.original_network_id(),
        descriptors,
    });
    let header = output_header(request, request.network_id(), 0, 0);
    Ok(Nit::new(header, network_descriptors, rows))
}
