//! The output's PAT.

ghost use Rattle.std.specs.Prelude.{◌≡◌, map, IfOk};
ghost use Rattle.request.specs.Request.{IsRequest};
ghost use Rattle.selection.specs.ChosenView.{chosen_value};
ghost use Rattle.output_tables.specs.Output.{output_pat};
ghost use Rattle.selection.specs.Chosen.{AreServicesOf};

use crate::output_header::output_header;
use request::Request;
use selection::ChosenService;
use std::alloc::{AllocError, Global};
use tables::{Pat, PatRow};

/// The PID of the NIT (EN 300 468, 5.1.3).
const NETWORK_PID: u16 = 0x0010;

/// The output's PAT: the network's PID, and then each service. It fails only for want of memory.
pub fn output_pat(
    alloc: Global,
    request: &Request,
    chosen: &[ChosenService],
) -> Result<Pat, AllocError>
    requires request { IsRequest request.now }
    requires services { AreServicesOf request.now (map chosen_value chosen.now) }
    ensures { IfOk result (λ pat. pat ≡ output_pat request.now (map chosen_value chosen.now)) }
{
    let mut rows = Vec::with_capacity(alloc, 1 + chosen.len())?;
    rows.push_reserved(PatRow {
        program_number: 0,
        pid: NETWORK_PID,
    });
    for service in chosen {
        rows.push_reserved(PatRow {
            program_number: service.service.service,
            pid: service.service.pmt,
        });
    }
    let header = output_header(request, request.transport_stream_id(), 0, 0);
    Ok(Pat::new(header, rows))
}
