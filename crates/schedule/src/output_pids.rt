//! Output PIDs that a later plan has again.

ghost use Rattle.std.specs.Prelude.{◌≡◌, ◌↔◌, ◌==◌, ◌&&◌, map, IsTrue, Contains};
ghost use Rattle.std.specs.List.{list_any};
ghost use Rattle.request.specs.declared.stream.Stream.{Stream};
ghost use Rattle.request.specs.declared.service.Service.{Service};
ghost use Rattle.request.specs.Request.{ServiceValue, service_value};
ghost use Rattle.schedule.specs.Switches.{output_pids, ReusesNoPid, KeepsStream, KeepsStreams, KeepsPmt, KeepsPmts};

use request::{Request, Service, Stream};

/// Whether a plan has an output PID for a stream.
fn has_stream_on(request: &Request, pid: u16) -> bool
    ensures { result ≡ list_any (λ (st : Stream). st.output_pid == pid) request.now.streams }
{
    request
        .streams()
        .iter()
        .any(|stream| stream.output_pid == pid)
}

/// Whether a PMT of these services has an output PID.
fn is_pmt_among(services: &[Service], pid: u16) -> bool
    ensures { result ≡ list_any (λ (s : Service). s.pmt == pid) services.now }
{
    services.iter().any(|service| service.pmt == pid)
}

/// Whether a plan has an output PID for the PMT of a service.
fn has_pmt_on(request: &Request, pid: u16) -> bool
    ensures { result ≡ list_any (λ (v : ServiceValue). v.pmt == pid) request.now.services }
{
    is_pmt_among(request.services(), pid)
}

/// Whether a plan has an output PID, for a stream or for the PMT of a service.
pub fn has_output_pid(request: &Request, pid: u16) -> bool
    ensures { IsTrue result ↔ Contains (output_pids request.now) pid }
{
    has_stream_on(request, pid) || has_pmt_on(request, pid)
}

/// Whether a plan has this very stream: of the same input and PID, to the same PID, and of the same leak. At a switch to it such a stream goes
/// on.
pub fn has_stream(request: &Request, stream: &Stream) -> bool
    ensures { IsTrue result ↔ Contains request.now.streams stream.now }
{
    request.streams().iter().any(|other| *other == *stream)
}

/// Whether one of these services has this number, and its PMT this PID.
fn is_among(services: &[Service], service: u16, pmt: u16) -> bool
    ensures { result ≡ list_any (λ (s : Service). s.service == service && s.pmt == pmt) services.now }
{
    services
        .iter()
        .any(|other| other.service == service && other.pmt == pmt)
}

/// Whether a plan has the PMT of the service with this number, on this PID. At a switch to it such a PMT stays where it is.
pub fn has_pmt_of(request: &Request, service: u16, pmt: u16) -> bool
    ensures { result ≡ list_any (λ (v : ServiceValue). v.service == service && v.pmt == pmt) request.now.services }
{
    is_among(request.services(), service, pmt)
}

/// Whether the plan just before has this stream, where an earlier one has its output PID.
fn keeps_stream(earlier: &Request, before: &Request, stream: &Stream) -> bool
    ensures { IsTrue result ↔ KeepsStream earlier.now before.now stream.now }
{
    !has_output_pid(earlier, stream.output_pid) || has_stream(before, stream)
}

/// The same of each of these streams.
fn keeps_streams(earlier: &Request, before: &Request, streams: &[Stream]) -> bool
    ensures { IsTrue result ↔ KeepsStreams earlier.now before.now streams.now }
{
    for stream in streams {
        if !keeps_stream(earlier, before, stream) {
            return false;
        }
    }
    true
}

/// Whether the plan just before has the PMT of this service, where an earlier one has its output PID.
fn keeps_pmt(earlier: &Request, before: &Request, service: &Service) -> bool
    ensures { IsTrue result ↔ KeepsPmt earlier.now before.now (service_value service.now) }
{
    !has_output_pid(earlier, service.pmt) || has_pmt_of(before, service.service, service.pmt)
}

/// The same of each of these services.
fn keeps_pmts(earlier: &Request, before: &Request, services: &[Service]) -> bool
    ensures { IsTrue result ↔ KeepsPmts earlier.now before.now (map service_value services.now) }
{
    for service in services {
        if !keeps_pmt(earlier, before, service) {
            return false;
        }
    }
    true
}

/// Whether the plan just before has each output PID of a plan that an earlier one has, and for the same.
pub(crate) fn reuses_no_pid(earlier: &Request, before: &Request, request: &Request) -> bool
    ensures { IsTrue result ↔ ReusesNoPid earlier.now before.now request.now }
{
    keeps_streams(earlier, before, request.streams())
        && keeps_pmts(earlier, before, request.services())
}
