//! The streams of a plan: its rows without those that repeat the input and the PID of an earlier one.

ghost use Rattle.std.specs.Prelude.{◌≡◌, ◌<◌, ◌≤◌, false, map, length, IsTrue, IfSome, IfNone};
ghost use Rattle.std.specs.List.{list_any};
ghost use Rattle.request.specs.Request.{has_same_source, service_rows, stream_rows_of};
ghost use Rattle.request.specs.Collected.{with_row, with_rows};
ghost use Rattle.request.specs.Parts.{service_parts_value};

use crate::limits::MAX_STREAMS;
use crate::service_parts::ServiceParts;
use crate::stream_row::StreamRow;
use arrayvec::ArrayVec;

/// Whether one of the rows has the source of this one.
fn is_found(found: &[StreamRow], row: &StreamRow) -> bool
    ensures { result ≡ list_any (has_same_source row.now) found.now }
{
    found.iter().any(|other| row.has_same_source(other))
}

/// Adds a row unless its source was found. False where it has no place.
fn add_row(found: &mut ArrayVec<StreamRow, MAX_STREAMS>, row: StreamRow) -> bool
    ensures added { IsTrue result → found.new.items ≡ with_row found.old.items row }
    ensures full { result ≡ false → MAX_STREAMS < length (with_row found.old.items row) }
{
    if is_found(found.as_slice(), &row) {
        return true;
    }
    found.try_push(row).is_ok()
}

#[tactic(auto, unfolding(crate::specs::Collected::with_rows))]
/// Adds the rows of a service whose sources weren't found. False where one has no place.
fn add_rows(found: &mut ArrayVec<StreamRow, MAX_STREAMS>, service: &ServiceParts) -> bool
    ensures added { IsTrue result → found.new.items
        ≡ with_rows found.old.items (service_rows (service_parts_value service.now)) }
    ensures full { result ≡ false → MAX_STREAMS
        < length (with_rows found.old.items (service_rows (service_parts_value service.now))) }
{
    for stream in &service.streams {
        if !add_row(found, StreamRow::new(service, stream)) {
            return false;
        }
    }
    true
}

/// The streams of the services; `None` where they are more than 64.
pub fn find_streams(services: &[ServiceParts]) -> Option<ArrayVec<StreamRow, MAX_STREAMS>>
    ensures found { IfSome result (λ v. v.items
        ≡ stream_rows_of (map service_parts_value services.now)) }
    ensures many { IfNone result (MAX_STREAMS
        < length (stream_rows_of (map service_parts_value services.now))) }
{
    let mut found = ArrayVec::new();
    for service in services {
        if !add_rows(&mut found, service) {
            return None;
        }
    }
    Some(found)
}
