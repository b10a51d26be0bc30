//! Rows of one PID of an input that aren't one stream.

ghost use Rattle.std.specs.Prelude.{◌≡◌};
ghost use Rattle.request.specs.Request.{are_at_odds};
ghost use Rattle.request.specs.Collected.{has_row_in, has_row};

use crate::service_parts::ServiceParts;
use crate::stream_row::StreamRow;

/// Whether a row of the service is at odds with this one.
fn is_at_odds_in(row: &StreamRow, service: &ServiceParts) -> bool
    ensures { result ≡ has_row_in (are_at_odds row.now) service.now }
{
    let mut streams = service.streams.iter();
    streams.any(|stream| row.is_at_odds(&StreamRow::new(service, stream)))
}

/// Whether a row of the services is at odds with this one.
fn is_at_odds(row: &StreamRow, services: &[ServiceParts]) -> bool
    ensures { result ≡ has_row (are_at_odds row.now) services.now }
{
    services.iter().any(|service| is_at_odds_in(row, service))
}

/// Whether a row of this service is at odds with one of the services.
fn has_row_at_odds(service: &ServiceParts, services: &[ServiceParts]) -> bool
    ensures { result ≡ has_row_in (λ a. has_row (are_at_odds a) services.now) service.now }
{
    let mut streams = service.streams.iter();
    streams.any(|stream| is_at_odds(&StreamRow::new(service, stream), services))
}

/// Whether two rows of the services are at odds.
pub fn has_rows_at_odds(services: &[ServiceParts]) -> bool
    ensures { result ≡ has_row (λ a. has_row (are_at_odds a) services.now) services.now }
{
    services
        .iter()
        .any(|service| has_row_at_odds(service, services))
}
