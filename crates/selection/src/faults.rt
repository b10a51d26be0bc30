//! The faults of the chosen services.

ghost use Rattle.std.specs.Prelude.{◌≡◌, ◌==◌, false, not, ◌&&◌, map, slice_get};
ghost use Rattle.std.specs.List.{list_any, filter_map};
ghost use Rattle.std.specs.Option.{option_map_or};
ghost use Rattle.tables.specs.declared.pmt_row.PmtRow.{PmtRow};
ghost use Rattle.request.specs.declared.stream.Stream.{Stream};
ghost use Rattle.selection.specs.Chosen.{has_ca, is_scrambled, is_elementary, lacks_rate};
ghost use Rattle.selection.specs.ChosenView.{chosen_value};
ghost use Rattle.selection.specs.declared.chosen_service.ChosenService.{ChosenService};
ghost use Rattle.selection.specs.ByNumber.{is_named_by, has_unknown_by};
ghost use Rattle.selection.specs.Faults.{program_fault_of};

use crate::chosen_service::ChosenService;
use request::{PlanFault, Request, Stream};
use tables::{Pmt, PmtRow, has_ca_descriptor};

/// PCR_PID of a program that has no PCR (ISO/IEC 13818-1, 2.4.4.9).
const NO_PCR_PID: u16 = 0x1fff;

/// Whether one of the elementary streams has a CA descriptor.
fn has_ca_stream(rows: &[PmtRow]) -> bool
    ensures { result ≡ list_any (λ (row : PmtRow). has_ca row.descriptors) rows.now }
{
    rows.iter().any(|row| has_ca_descriptor(&row.descriptors))
}

/// Whether the program or one of its elementary streams is scrambled, or its service may be.
#[tactic(auto, unfolding(crate::specs::Chosen::is_scrambled))]
fn is_scrambled(chosen: &ChosenService<'_>) -> bool
    ensures { result ≡ is_scrambled (chosen_value chosen.now) }
{
    has_ca_descriptor(chosen.pmt.program_info())
        || has_ca_stream(chosen.pmt.rows())
        || chosen.row.free_ca_mode
}

/// Whether the stream of this number has this PID.
fn has_pid(streams: &[Stream], number: usize, pid: u16) -> bool
    ensures { result
        ≡ option_map_or (λ (s : Stream). s.pid == pid) (slice_get streams.now number) false }
{
    match streams.get(number) {
        Some(stream) => stream.pid == pid,
        None => false,
    }
}

/// Whether one of the streams of these numbers has this PID.
fn is_named(streams: &[Stream], numbers: &[usize], pid: u16) -> bool
    ensures { result ≡ is_named_by streams.now numbers.now pid }
{
    numbers.iter().any(|number| has_pid(streams, *number, pid))
}

/// Whether the program has an elementary stream of this PID.
fn is_elementary(pmt: &Pmt, pid: u16) -> bool
    ensures { result ≡ is_elementary pmt.now pid }
{
    pmt.rows().iter().any(|row| row.elementary_pid == pid)
}

/// Whether the program has an elementary PID that none of the streams of these numbers has.
fn has_unnamed_row(streams: &[Stream], numbers: &[usize], rows: &[PmtRow]) -> bool
    ensures { result ≡ list_any (λ (row : PmtRow). not (is_named_by streams.now numbers.now
        row.elementary_pid)) rows.now }
{
    rows.iter()
        .any(|row| !is_named(streams, numbers, row.elementary_pid))
}

/// Whether the program has an elementary PID, or a PCR PID, that none of the streams of these
/// numbers has.
fn lacks_rate(streams: &[Stream], numbers: &[usize], pmt: &Pmt) -> bool
    ensures { result ≡ lacks_rate (filter_map (λ n. slice_get streams.now n) numbers.now) pmt.now }
{
    has_unnamed_row(streams, numbers, pmt.rows())
        || (pmt.pcr_pid() != NO_PCR_PID && !is_named(streams, numbers, pmt.pcr_pid()))
}

/// Whether the stream of this number has a PID that the program doesn't name.
fn is_unknown(streams: &[Stream], number: usize, pmt: &Pmt) -> bool
    ensures { result ≡ option_map_or
        (λ (s : Stream). not (is_elementary pmt.now s.pid) && not (pmt.now.pcr_pid == s.pid))
        (slice_get streams.now number) false }
{
    match streams.get(number) {
        Some(stream) => !is_elementary(pmt, stream.pid) && pmt.pcr_pid() != stream.pid,
        None => false,
    }
}

/// Whether one of the streams of these numbers has a PID that the program doesn't name.
fn has_unknown_stream(streams: &[Stream], numbers: &[usize], pmt: &Pmt) -> bool
    ensures { result ≡ has_unknown_by streams.now numbers.now pmt.now }
{
    numbers
        .iter()
        .any(|number| is_unknown(streams, *number, pmt))
}

/// Whether one of the services is scrambled.
fn has_scrambled(chosen: &[ChosenService<'_>]) -> bool
    ensures { result ≡ list_any (λ (c : ChosenService). is_scrambled (chosen_value c)) chosen.now }
{
    chosen.iter().any(|chosen| is_scrambled(chosen))
}

/// Whether the program of one of the services has a PID that none of the service's streams has.
fn has_missing_rate(streams: &[Stream], chosen: &[ChosenService<'_>]) -> bool
    ensures { result ≡ list_any (λ (c : ChosenService). lacks_rate
        (filter_map (λ n. slice_get streams.now n) c.service.now.streams.items) c.pmt.now)
        chosen.now }
{
    chosen.iter().any(|chosen| lacks_rate(streams, &chosen.service.streams, chosen.pmt))
}

/// Whether one of the services has a stream of a PID that its program doesn't name.
fn has_unknown(streams: &[Stream], chosen: &[ChosenService<'_>]) -> bool
    ensures { result ≡ list_any (λ (c : ChosenService).
        has_unknown_by streams.now c.service.now.streams.items c.pmt.now) chosen.now }
{
    chosen.iter().any(|chosen| has_unknown_stream(streams, &chosen.service.streams, chosen.pmt))
}

/// The fault of the chosen services by their programs and streams. Of those that apply, to
/// whichever service, the one with the least number is answered: `CaFound` where one has a CA
/// descriptor in its program or in one of its elementary streams, or free_CA_mode; `RateMissing`
/// where a program has an elementary PID or a PCR PID that no stream of its service has;
/// `StreamUnknown` where a stream of a service has a PID that its program doesn't name.
pub fn program_fault(request: &Request, chosen: &[ChosenService<'_>]) -> Option<PlanFault>
    ensures { result ≡ program_fault_of request.now (map chosen_value chosen.now) }
{
    let streams = request.streams();
    if has_scrambled(chosen) {
        return Some(PlanFault::CaFound);
    }
    if has_missing_rate(streams, chosen) {
        return Some(PlanFault::RateMissing);
    }
    if has_unknown(streams, chosen) {
        return Some(PlanFault::StreamUnknown);
    }
    None
}
