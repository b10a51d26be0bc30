//! Pairs of rows, and of a row and a PMT, that use one PID for two things.

ghost use Rattle.std.specs.Prelude.{◌≡◌, IfSome, is_some, map, find, option_copied};
ghost use Rattle.std.specs.List.{list_any, position_from};
ghost use Rattle.std.specs.Ordering.{int_eq};
ghost use Rattle.request.specs.Parts.{service_parts_value};
ghost use Rattle.request.specs.Request.{are_at_odds, rows_of};
ghost use Rattle.request.specs.declared.stream_row.StreamRow.{StreamRow};
ghost use Rattle.request.specs.declared.service_parts.ServiceParts.{ServiceParts};
ghost use Rattle.request_causes.specs.Causes.{AreRowsOf, IsPidCause, stream_row, meet, pmts_of};
ghost use Rattle.request_causes.specs.declared.placed_row.PlacedRow.{PlacedRow};

use crate::pid_cause::PidCause;
use crate::placed_row::PlacedRow;
use request::ServiceParts;

/// The first row that is at odds with this one.
fn find_at_odds<'a>(rows: &'a [PlacedRow], row: &PlacedRow) -> Option<&'a PlacedRow>
    ensures { option_copied result
        ≡ find (λ (other : PlacedRow). are_at_odds (stream_row row.now) (stream_row other)) rows.now }
{
    rows.iter().find(|other| row.is_at_odds(other))
}

/// Whether a row is at odds with this one.
fn is_at_odds(rows: &[PlacedRow], row: &PlacedRow) -> bool
    ensures { result ≡ list_any
        (λ (other : PlacedRow). are_at_odds (stream_row row.now) (stream_row other)) rows.now }
{
    rows.iter().any(|other| row.is_at_odds(other))
}

/// The first row with which another is at odds.
fn find_first_at_odds(rows: &[PlacedRow]) -> Option<&PlacedRow>
    ensures { option_copied result ≡ find (λ (row : PlacedRow). list_any
        (λ (other : PlacedRow). are_at_odds (stream_row row) (stream_row other)) rows.now) rows.now }
{
    rows.iter().find(|row| is_at_odds(rows, row))
}

/// The first two rows of one PID of an input that aren't one stream.
pub fn odds_cause(services: &[ServiceParts], rows: &[PlacedRow]) -> Option<PidCause>
    requires { AreRowsOf (map service_parts_value services.now) rows.now }
    ensures cause { IfSome result (IsPidCause (map service_parts_value services.now)) }
    ensures some { is_some result ≡ list_any
        (λ (a : StreamRow). list_any (are_at_odds a) (rows_of (map service_parts_value services.now)))
        (rows_of (map service_parts_value services.now)) }
{
    let first = find_first_at_odds(rows)?;
    let second = find_at_odds(rows, first)?;
    Some(PidCause::RowsDiffer(*first, *second))
}

/// The first row of another stream that has the output PID of this row.
fn find_meeting<'a>(rows: &'a [PlacedRow], row: &PlacedRow) -> Option<&'a PlacedRow>
    ensures { option_copied result
        ≡ find (λ (other : PlacedRow). meet (stream_row row.now) (stream_row other)) rows.now }
{
    rows.iter().find(|other| row.meets(other))
}

/// Whether a row of another stream has the output PID of this row.
fn is_met(rows: &[PlacedRow], row: &PlacedRow) -> bool
    ensures { result ≡ list_any
        (λ (other : PlacedRow). meet (stream_row row.now) (stream_row other)) rows.now }
{
    rows.iter().any(|other| row.meets(other))
}

/// The first row whose output PID a row of another stream has.
fn find_first_meeting(rows: &[PlacedRow]) -> Option<&PlacedRow>
    ensures { option_copied result ≡ find (λ (row : PlacedRow). list_any
        (λ (other : PlacedRow). meet (stream_row row) (stream_row other)) rows.now) rows.now }
{
    rows.iter().find(|row| is_met(rows, row))
}

/// The first two rows of two streams with one output PID.
pub fn meeting_cause(services: &[ServiceParts], rows: &[PlacedRow]) -> Option<PidCause>
    requires { AreRowsOf (map service_parts_value services.now) rows.now }
    ensures cause { IfSome result (IsPidCause (map service_parts_value services.now)) }
    ensures some { is_some result ≡ list_any
        (λ (a : StreamRow). list_any (meet a) (rows_of (map service_parts_value services.now)))
        (rows_of (map service_parts_value services.now)) }
{
    let first = find_first_meeting(rows)?;
    let second = find_meeting(rows, first)?;
    Some(PidCause::StreamsMeet(*first, *second))
}

/// The place of the first service whose PMT has the output PID of this row.
fn place_of_pmt(services: &[ServiceParts], row: &PlacedRow) -> Option<usize>
    ensures { result ≡ position_from (λ (s : ServiceParts). int_eq row.now.out s.pmt) 0 services.now }
{
    services.iter().position(|service| row.out == service.pmt)
}

/// Whether the PMT of a service has this PID.
fn is_pmt(services: &[ServiceParts], pid: i64) -> bool
    ensures { result ≡ list_any (λ (s : ServiceParts). int_eq pid s.pmt) services.now }
{
    services.iter().any(|service| pid == service.pmt)
}

/// The first row whose output PID the PMT of a service has.
fn find_on_pmt<'a>(services: &[ServiceParts], rows: &'a [PlacedRow]) -> Option<&'a PlacedRow>
    ensures { option_copied result ≡ find (λ (row : PlacedRow). list_any
        (λ (s : ServiceParts). int_eq row.out s.pmt) services.now) rows.now }
{
    rows.iter().find(|row| is_pmt(services, row.out))
}

/// The first row whose output PID the PMT of a service has, and the first such service.
pub fn pmt_cause(services: &[ServiceParts], rows: &[PlacedRow]) -> Option<PidCause>
    requires { AreRowsOf (map service_parts_value services.now) rows.now }
    ensures cause { IfSome result (IsPidCause (map service_parts_value services.now)) }
    ensures some { is_some result ≡ list_any
        (λ (a : StreamRow). list_any (int_eq a.out) (pmts_of (map service_parts_value services.now)))
        (rows_of (map service_parts_value services.now)) }
{
    let row = find_on_pmt(services, rows)?;
    let service = place_of_pmt(services, row)?;
    Some(PidCause::StreamMeetsPmt(*row, service))
}
