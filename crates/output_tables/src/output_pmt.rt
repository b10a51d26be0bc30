//! The PMTs of the output.

ghost use Rattle.std.specs.Prelude.{◌≡◌, map, IfOk};
ghost use Rattle.request.specs.Request.{IsRequest};
ghost use Rattle.request.specs.Request.{service_value};
ghost use Rattle.selection.specs.Chosen.{streams_of};
ghost use Rattle.selection.specs.ChosenView.{chosen_value};
ghost use Rattle.output_tables.specs.Output.{output_pmt, mapped_row};

use crate::copied_descriptors::copied_descriptors;
use crate::mapped_pid::mapped_pid;
use crate::output_header::output_header;
use request::{Request, Service};
use selection::ChosenService;
use std::alloc::{AllocError, Global};
use tables::{Pmt, PmtRow};

/// The row on its output PID.
fn mapped_row(
    alloc: Global,
    request: &Request,
    service: &Service,
    row: &PmtRow,
) -> Result<PmtRow, AllocError>
    ensures { IfOk result (λ r. r ≡ mapped_row (streams_of request.now (service_value service.now)) row.now) }
{
    let descriptors = copied_descriptors(alloc, &row.descriptors)?;
    Ok(PmtRow {
        stream_type: row.stream_type,
        elementary_pid: mapped_pid(request, service, row.elementary_pid),
        descriptors,
    })
}

/// The rows on their output PIDs.
fn mapped_rows(
    alloc: Global,
    request: &Request,
    service: &Service,
    rows: &[PmtRow],
) -> Result<Vec<PmtRow>, AllocError>
    ensures { IfOk result (λ v. v.items
        ≡ map (mapped_row (streams_of request.now (service_value service.now))) rows.now) }
{
    let mut mapped = Vec::with_capacity(alloc, rows.len())?;
    for row in rows {
        mapped.push_reserved(mapped_row(alloc, request, service, row)?);
    }
    Ok(mapped)
}

/// The PMT of a service: the input's, with the output's number and PIDs. It fails only for want of memory.
pub fn output_pmt(
    alloc: Global,
    request: &Request,
    chosen: &ChosenService,
) -> Result<Pmt, AllocError>
    requires request { IsRequest request.now }
    ensures { IfOk result (λ pmt. pmt ≡ output_pmt request.now (chosen_value chosen.now)) }
{
    let service = chosen.service;
    let program_info = copied_descriptors(alloc, chosen.pmt.program_info())?;
    let rows = mapped_rows(alloc, request, service, chosen.pmt.rows())?;
    let header = output_header(request, service.service, 0, 0);
    let pcr_pid = mapped_pid(request, service, chosen.pmt.pcr_pid());
    Ok(Pmt::new(header, pcr_pid, program_info, rows))
}
