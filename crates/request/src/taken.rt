//! Numbers that a plan uses twice.

ghost use Rattle.std.specs.Prelude.{◌≡◌, ◌≤◌, ◌++◌, ℤ, map, length};
ghost use Rattle.std.specs.List.{list_any};
ghost use Rattle.std.specs.Ordering.{int_eq};
ghost use Rattle.request.specs.Request.{stream_rows_of, has_repeat, has_service_twice, names_pid_twice, has_pid_twice};
ghost use Rattle.request.specs.Parts.{ServicePartsValue, service_parts_value};
ghost use Rattle.request.specs.declared.stream_parts.StreamParts.{StreamParts};
ghost use Rattle.request.specs.declared.stream_row.StreamRow.{StreamRow};

use crate::limits::{MAX_SERVICES, MAX_STREAMS};
use crate::odds::has_rows_at_odds;
use crate::service_parts::ServiceParts;
use crate::stream_parts::StreamParts;
use crate::stream_row::StreamRow;
use arrayvec::ArrayVec;

/// The greatest number of output PIDs: one for each stream and for each PMT.
const MAX_OUTPUT_PIDS: usize = MAX_STREAMS + MAX_SERVICES;

/// Whether a number is among others.
fn is_among(number: &i64, others: &[i64]) -> bool
    ensures { result ≡ list_any (int_eq number.now) others.now }
{
    others.iter().any(|other| *number == *other)
}

/// Whether a number is there twice.
fn has_repeat(numbers: &[i64]) -> bool
    ensures { result ≡ has_repeat numbers.now }
{
    for (i, number) in numbers.iter().enumerate() {
        if is_among(number, &numbers[i + 1..]) {
            return true;
        }
    }
    false
}

/// Whether one of the streams has the PID of this one.
fn has_pid_of(stream: &StreamParts, others: &[StreamParts]) -> bool
    ensures { result ≡ list_any (λ (r : StreamParts). int_eq stream.now.pid r.pid) others.now }
{
    others.iter().any(|other| stream.pid == other.pid)
}

/// Whether two of the streams have one PID.
fn has_pid_repeat(streams: &[StreamParts]) -> bool
    ensures { result ≡ has_repeat (map (λ (r : StreamParts). r.pid) streams.now) }
{
    for (i, stream) in streams.iter().enumerate() {
        if has_pid_of(stream, &streams[i + 1..]) {
            return true;
        }
    }
    false
}

/// Whether a service names a PID twice.
fn names_pid_twice(service: &ServiceParts) -> bool
    ensures { result ≡ names_pid_twice (service_parts_value service.now) }
{
    has_pid_repeat(&service.streams)
}

/// The numbers of the services in the output.
fn service_numbers(services: &[ServiceParts]) -> ArrayVec<i64, MAX_SERVICES>
    requires { length services.now ≤ MAX_SERVICES }
    ensures { result.items ≡ map (λ (s : ServicePartsValue). s.service)
        (map service_parts_value services.now) }
{
    let mut numbers = ArrayVec::new();
    for service in services {
        numbers.push(service.service);
    }
    numbers
}

/// Whether two services have one number.
pub fn has_service_twice(services: &[ServiceParts]) -> bool
    requires { length services.now ≤ MAX_SERVICES }
    ensures { result ≡ has_service_twice (map service_parts_value services.now) }
{
    has_repeat(service_numbers(services).as_slice())
}

/// The output PIDs of streams, and of the PMTs of services.
fn output_pids(streams: &[StreamRow], services: &[ServiceParts]) -> ArrayVec<i64, MAX_OUTPUT_PIDS>
    requires streams { length streams.now ≤ MAX_STREAMS }
    requires services { length services.now ≤ MAX_SERVICES }
    ensures { result.items ≡ map (λ (r : StreamRow). r.out) streams.now
        ++ map (λ (s : ServicePartsValue). s.pmt) (map service_parts_value services.now) }
{
    let mut pids = ArrayVec::new();
    for stream in streams {
        pids.push(stream.out);
    }
    for service in services {
        pids.push(service.pmt);
    }
    pids
}

/// Whether a service names a PID twice, two rows of one PID of an input differ, or an output PID is used for two
/// things. The streams are those of the services.
pub fn has_pid_twice(streams: &[StreamRow], services: &[ServiceParts]) -> bool
    requires found { streams.now ≡ stream_rows_of (map service_parts_value services.now) }
    requires streams { length streams.now ≤ MAX_STREAMS }
    requires services { length services.now ≤ MAX_SERVICES }
    ensures { result ≡ has_pid_twice (map service_parts_value services.now) }
{
    if name_pids_twice(services) {
        return true;
    }
    if has_rows_at_odds(services) {
        return true;
    }
    has_repeat(output_pids(streams, services).as_slice())
}

/// Whether one of the services names a PID twice.
fn name_pids_twice(services: &[ServiceParts]) -> bool
    ensures { result ≡ list_any (λ s. names_pid_twice (service_parts_value s)) services.now }
{
    services.iter().any(|service| names_pid_twice(service))
}
