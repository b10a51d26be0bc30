//! The sections of the output's SDT.

ghost use Rattle.std.specs.Prelude.{◌≡◌, ◌<◌, ◌^◌, map, length, IfOk};
ghost use Rattle.std.specs.VecDeque.{deque_len};
ghost use Rattle.request.specs.Request.{IsRequest};
ghost use Rattle.tables.specs.Sdt.{IsSdtRow};
ghost use Rattle.selection.specs.ChosenView.{chosen_value};
ghost use Rattle.output_tables.specs.Output.{output_row, output_sdt, sdt_groups};
ghost use Rattle.selection.specs.Chosen.{AreServicesOf, AreInputRows};
ghost use Rattle.output_tables.specs.Room.{AreInRoom};

use crate::copied_descriptors::copied_descriptors;
use crate::output_header::output_header;
use crate::row_group::RowGroup;
use crate::too_large::ROW_HEAD_LENGTH;
use request::{Request, Service};
use selection::ChosenService;
use std::alloc::{AllocError, Global};
use std::collections::VecDeque;
use std::mem;
use tables::{MAX_SDT_ROWS_LENGTH, Sdt, SdtRow};

/// The service's number in the output, 16 bits.
fn service_id(service: &Service) -> u16
    ensures value { result ≡ service.now.service }
    ensures fits { result < 2 ^ 16 }
{
    service.service
}

/// The service's row: the input's, with the output's number and no EIT, and not scrambled.
fn output_row(alloc: Global, chosen: &ChosenService) -> Result<SdtRow, AllocError>
    requires { chosen.now.row.now.running_status < 8 }
    ensures value { IfOk result (λ row. row ≡ output_row (chosen_value chosen.now)) }
    ensures fits { IfOk result IsSdtRow }
{
    let descriptors = copied_descriptors(alloc, &chosen.row.descriptors)?;
    Ok(SdtRow {
        service_id: service_id(chosen.service),
        eit_schedule_flag: false,
        eit_present_following_flag: false,
        running_status: chosen.row.running_status,
        free_ca_mode: false,
        descriptors,
    })
}

/// The rows of each section: in order, each put to those before it as long as there is room.
fn group_rows(alloc: Global, chosen: &[ChosenService]) -> Result<VecDeque<RowGroup>, AllocError>
    requires some { 0 < length chosen.now }
    requires rows { AreInputRows (map chosen_value chosen.now) }
    requires room { AreInRoom (map chosen_value chosen.now) }
    ensures rows { IfOk result (λ v.
        v.items ≡ sdt_groups (map output_row (map chosen_value chosen.now))) }
    ensures len { IfOk result (λ v. deque_len v ≡ length v.items) }
{
    let mut groups = VecDeque::new(alloc);
    let mut group = RowGroup::new(alloc);
    let mut room = MAX_SDT_ROWS_LENGTH;
    for service in chosen {
        let length = ROW_HEAD_LENGTH + service.row.descriptors.bytes().len();
        if length > room {
            groups.push_back(mem::replace(&mut group, RowGroup::new(alloc)))?;
            room = MAX_SDT_ROWS_LENGTH;
        }
        group.push(output_row(alloc, service)?)?;
        room -= length;
    }
    groups.push_back(group)?;
    Ok(groups)
}

/// The sections of the output's SDT: each service's row, in as many sections as they take. It fails only for want of
/// memory.
pub fn output_sdt(
    alloc: Global,
    request: &Request,
    chosen: &[ChosenService],
) -> Result<Vec<Sdt>, AllocError>
    requires request { IsRequest request.now }
    requires services { AreServicesOf request.now (map chosen_value chosen.now) }
    requires rows { AreInputRows (map chosen_value chosen.now) }
    requires room { AreInRoom (map chosen_value chosen.now) }
    ensures { IfOk result (λ v. v.items ≡ output_sdt request.now (map chosen_value chosen.now)) }
{
    let mut groups = group_rows(alloc, chosen)?;
    let last = (groups.len() - 1) as u8;
    let mut sections = Vec::with_capacity(alloc, groups.len())?;
    while let Some(group) = groups.pop_front() {
        let number = sections.len() as u8;
        let header = output_header(request, request.transport_stream_id(), number, last);
        let rows = group.into_rows();
        sections.push_reserved(Sdt::new(header, request.original_network_id(), rows));
    }
    Ok(sections)
}
