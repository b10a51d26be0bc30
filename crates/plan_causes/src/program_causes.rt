//! The chosen services that are scrambled, or whose streams aren't those of their programs.

ghost use Rattle.std.specs.Prelude.{◌≡◌, ◌==◌, not, ◌&&◌, false, if◌then◌else◌, None, Some, IfSome, is_some, map, find, option_map, option_copied, slice_get};
ghost use Rattle.std.specs.List.{list_any, filter_map};
ghost use Rattle.std.specs.Option.{option_map_or};
ghost use Rattle.tables.specs.declared.pmt_row.PmtRow.{PmtRow};
ghost use Rattle.request.specs.declared.plan_fault.PlanFault.TheVariants.{CaFound, RateMissing, StreamUnknown};
ghost use Rattle.request.specs.declared.stream.Stream.{Stream};
ghost use Rattle.selection.specs.Chosen.{ChosenValue, has_ca, is_scrambled, is_elementary, no_pcr_pid, streams_of, lacks_rate, has_unknown_stream};
ghost use Rattle.selection.specs.ChosenView.{chosen_value};
ghost use Rattle.selection.specs.ByNumber.{is_named_by};
ghost use Rattle.selection.specs.declared.chosen_service.ChosenService.{ChosenService};
ghost use Rattle.selection.specs.Faults.{program_fault_of};
ghost use Rattle.plan_causes.specs.Causes.{IsCaPlace, IsMissing, IsUnknown, IsCauseAmong, fault_of};

use crate::ca_place::CaPlace;
use crate::missing_stream::MissingStream;
use crate::plan_cause::PlanCause;
use crate::service_numbers::ServiceNumbers;
use crate::stream_tests::{is_named, is_unknown, pid_at};
use request::{Request, Stream};
use selection::ChosenService;
use tables::{Pmt, PmtRow, has_ca_descriptor};

/// PCR_PID of a program that has no PCR (ISO/IEC 13818-1, 2.4.4.9).
const NO_PCR_PID: u16 = 0x1fff;

/// The first elementary stream with a CA descriptor.
fn find_ca_row(rows: &[PmtRow]) -> Option<&PmtRow>
    ensures { option_copied result ≡ find (λ (row : PmtRow). has_ca row.descriptors) rows.now }
{
    rows.iter().find(|row| has_ca_descriptor(&row.descriptors))
}

/// What says that the service is scrambled, or may be: a CA descriptor of its program, else one of the first elementary stream
/// that has one, else free_CA_mode.
fn ca_place(chosen: &ChosenService<'_>) -> Option<CaPlace>
    ensures place { IfSome result (IsCaPlace (chosen_value chosen.now)) }
    ensures some { is_some result ≡ is_scrambled (chosen_value chosen.now) }
{
    if has_ca_descriptor(chosen.pmt.program_info()) {
        return Some(CaPlace::Program);
    }
    match find_ca_row(chosen.pmt.rows()) {
        Some(row) => Some(CaPlace::Stream(row.elementary_pid)),
        None if chosen.row.free_ca_mode => Some(CaPlace::FreeCaMode),
        None => None,
    }
}

/// The first elementary stream whose PID none of the streams of these numbers has.
fn find_unnamed_row<'a>(
    streams: &[Stream],
    numbers: &[usize],
    rows: &'a [PmtRow],
) -> Option<&'a PmtRow>
    ensures { option_copied result ≡ find (λ (row : PmtRow). not (is_named_by streams.now numbers.now
        row.elementary_pid)) rows.now }
{
    rows.iter()
        .find(|row| !is_named(streams, numbers, row.elementary_pid))
}

/// Whether the program has a PCR PID that none of the streams of these numbers has.
fn lacks_pcr(streams: &[Stream], numbers: &[usize], pmt: &Pmt) -> bool
    ensures { result ≡ (not (pmt.now.pcr_pid == no_pcr_pid)
        && not (is_named_by streams.now numbers.now pmt.now.pcr_pid)) }
{
    pmt.pcr_pid() != NO_PCR_PID && !is_named(streams, numbers, pmt.pcr_pid())
}

/// The first PID that the program names and none of the streams of these numbers has: of the elementary streams, else the PCR
/// PID.
fn missing_stream(streams: &[Stream], numbers: &[usize], pmt: &Pmt) -> Option<MissingStream>
    ensures stream { IfSome result
        (IsMissing (filter_map (λ n. slice_get streams.now n) numbers.now) pmt.now) }
    ensures some { is_some result
        ≡ lacks_rate (filter_map (λ n. slice_get streams.now n) numbers.now) pmt.now }
{
    match find_unnamed_row(streams, numbers, pmt.rows()) {
        Some(row) => Some(MissingStream::Elementary {
            pid: row.elementary_pid,
            stream_type: row.stream_type,
        }),
        None if lacks_pcr(streams, numbers, pmt) => Some(MissingStream::Pcr(pmt.pcr_pid())),
        None => None,
    }
}

/// The number of the first stream of these numbers that the program doesn't name.
fn find_unknown(streams: &[Stream], numbers: &[usize], pmt: &Pmt) -> Option<usize>
    ensures { result ≡ find (λ n. option_map_or
        (λ (s : Stream). not (is_elementary pmt.now s.pid) && not (pmt.now.pcr_pid == s.pid))
        (slice_get streams.now n) false) numbers.now }
{
    numbers
        .iter()
        .copied()
        .find(|number| is_unknown(streams, *number, pmt))
}

/// The PID of the first stream of these numbers that the program doesn't name.
fn unknown_pid(streams: &[Stream], numbers: &[usize], pmt: &Pmt) -> Option<u16>
    ensures unknown { IfSome result
        (IsUnknown (filter_map (λ n. slice_get streams.now n) numbers.now) pmt.now) }
    ensures some { is_some result
        ≡ has_unknown_stream (filter_map (λ n. slice_get streams.now n) numbers.now) pmt.now }
{
    let number = find_unknown(streams, numbers, pmt)?;
    pid_at(streams, number)
}

/// The first service that is scrambled.
fn find_scrambled<'a, 'b>(chosen: &'b [ChosenService<'a>]) -> Option<&'b ChosenService<'a>>
    ensures { option_copied result
        ≡ find (λ (c : ChosenService). is_scrambled (chosen_value c)) chosen.now }
{
    chosen.iter().find(|chosen| ca_place(chosen).is_some())
}

/// The first service whose program has a stream that the service hasn't.
fn find_missing<'a, 'b>(
    streams: &[Stream],
    chosen: &'b [ChosenService<'a>],
) -> Option<&'b ChosenService<'a>>
    ensures { option_copied result ≡ find (λ (c : ChosenService). lacks_rate
        (filter_map (λ n. slice_get streams.now n) c.service.now.streams.items) c.pmt.now) chosen.now }
{
    chosen.iter().find(|chosen| missing_stream(
        streams,
        &chosen.service.streams,
        chosen.pmt,
    ).is_some())
}

/// The first service with a stream that its program doesn't name.
fn find_with_unknown<'a, 'b>(
    streams: &[Stream],
    chosen: &'b [ChosenService<'a>],
) -> Option<&'b ChosenService<'a>>
    ensures { option_copied result ≡ find (λ (c : ChosenService). has_unknown_stream
        (filter_map (λ n. slice_get streams.now n) c.service.now.streams.items) c.pmt.now) chosen.now }
{
    chosen.iter().find(|chosen| unknown_pid(streams, &chosen.service.streams, chosen.pmt).is_some())
}

/// The first service that is scrambled, and where.
fn ca_cause(request: &Request, chosen: &[ChosenService<'_>]) -> Option<PlanCause>
    ensures fault { option_map fault_of result
        ≡ (if list_any is_scrambled (map chosen_value chosen.now) then Some CaFound else None) }
    ensures cause { IfSome result (IsCauseAmong request.now (map chosen_value chosen.now)) }
{
    let service = find_scrambled(chosen)?;
    let place = ca_place(service)?;
    let numbers = ServiceNumbers::of(service.service);
    Some(PlanCause::CaFound(numbers, place))
}

/// The first service whose program has a stream that the service hasn't, and which stream.
fn rate_cause(request: &Request, chosen: &[ChosenService<'_>]) -> Option<PlanCause>
    ensures fault { option_map fault_of result ≡ (if list_any
        (λ (c : ChosenValue). lacks_rate (streams_of request.now c.service) c.pmt)
        (map chosen_value chosen.now) then Some RateMissing else None) }
    ensures cause { IfSome result (IsCauseAmong request.now (map chosen_value chosen.now)) }
{
    let streams = request.streams();
    let service = find_missing(streams, chosen)?;
    let stream = missing_stream(streams, &service.service.streams, service.pmt)?;
    let numbers = ServiceNumbers::of(service.service);
    Some(PlanCause::RateMissing(numbers, stream))
}

/// The first service with a stream that its program doesn't name, and that stream's PID.
fn unknown_cause(request: &Request, chosen: &[ChosenService<'_>]) -> Option<PlanCause>
    ensures fault { option_map fault_of result ≡ (if list_any
        (λ (c : ChosenValue). has_unknown_stream (streams_of request.now c.service) c.pmt)
        (map chosen_value chosen.now) then Some StreamUnknown else None) }
    ensures cause { IfSome result (IsCauseAmong request.now (map chosen_value chosen.now)) }
{
    let streams = request.streams();
    let service = find_with_unknown(streams, chosen)?;
    let pid = unknown_pid(streams, &service.service.streams, service.pmt)?;
    let numbers = ServiceNumbers::of(service.service);
    Some(PlanCause::StreamUnknown(numbers, pid))
}

/// The cause of the fault of the chosen services by their programs and streams.
#[tactic(auto, unfolding(selection::specs::Faults::program_fault_of))]
pub fn program_cause(request: &Request, chosen: &[ChosenService<'_>]) -> Option<PlanCause>
    ensures fault { option_map fault_of result
        ≡ program_fault_of request.now (map chosen_value chosen.now) }
    ensures cause { IfSome result (IsCauseAmong request.now (map chosen_value chosen.now)) }
{
    if let Some(cause) = ca_cause(request, chosen) {
        return Some(cause);
    }
    if let Some(cause) = rate_cause(request, chosen) {
        return Some(cause);
    }
    unknown_cause(request, chosen)
}
