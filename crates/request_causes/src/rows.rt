//! The rows of a plan with their places.

ghost use Rattle.std.specs.Prelude.{◌≡◌, ◌<◌, ◌++◌, All, length, map, IfOk, OnOk, slice_get, Some};
ghost use Rattle.request.specs.Parts.{service_parts_value};
ghost use Rattle.request.specs.Request.{service_rows};
ghost use Rattle.request_causes.specs.Causes.{AreRowsOf, IsRowOf, stream_row};

use crate::placed_row::PlacedRow;
use request::ServiceParts;
use std::alloc::{AllocError, Global};

/// Adds the rows of the service at this place.
fn add_rows(
    rows: &mut Vec<PlacedRow>,
    services: &[ServiceParts],
    place: usize,
    service: &ServiceParts,
) -> Result<(), AllocError>
    requires { slice_get services.now place ≡ Some service.now }
    ensures places { OnOk result (All (IsRowOf (map service_parts_value services.now)) rows.old.items
        → All (IsRowOf (map service_parts_value services.now)) rows.new.items) }
    ensures all { OnOk result (map stream_row rows.new.items
        ≡ map stream_row rows.old.items ++ service_rows (service_parts_value service.now)) }
{
    for (number, stream) in service.streams.iter().enumerate() {
        rows.push(PlacedRow::new(place, service, number, stream))?;
    }
    Ok(())
}

/// The rows of all services, in the order of the text.
pub fn placed_rows(alloc: Global, services: &[ServiceParts]) -> Result<Vec<PlacedRow>, AllocError>
    ensures { IfOk result (λ rows. AreRowsOf (map service_parts_value services.now) rows.items) }
{
    let mut rows = Vec::new(alloc);
    for (place, service) in services.iter().enumerate() {
        add_rows(&mut rows, services, place, service)?;
    }
    Ok(rows)
}
