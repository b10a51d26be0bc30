//! Tests of a service's streams.

ghost use Rattle.std.specs.Prelude.{◌≡◌, ◌==◌, false, not, ◌&&◌, slice_get, option_map};
ghost use Rattle.std.specs.Option.{option_map_or};
ghost use Rattle.request.specs.declared.stream.Stream.{Stream};
ghost use Rattle.selection.specs.Chosen.{is_elementary};
ghost use Rattle.selection.specs.ByNumber.{is_named_by};

use request::Stream;
use tables::Pmt;

/// Whether the stream of this number has this PID.
fn has_pid(streams: &[Stream], number: usize, pid: u16) -> bool
    ensures { result
        ≡ option_map_or (λ (s : Stream). s.pid == pid) (slice_get streams.now number) false }
{
    match streams.get(number) {
        Some(stream) => stream.pid == pid,
        None => false,
    }
}

/// The PID of the stream of this number.
pub fn pid_at(streams: &[Stream], number: usize) -> Option<u16>
    ensures { result ≡ option_map (λ (s : Stream). s.pid) (slice_get streams.now number) }
{
    let stream = streams.get(number)?;
    Some(stream.pid)
}

/// Whether one of the streams of these numbers has this PID.
pub fn is_named(streams: &[Stream], numbers: &[usize], pid: u16) -> bool
    ensures { result ≡ is_named_by streams.now numbers.now pid }
{
    numbers.iter().any(|number| has_pid(streams, *number, pid))
}

/// Whether the program has an elementary stream of this PID.
fn is_elementary(pmt: &Pmt, pid: u16) -> bool
    ensures { result ≡ is_elementary pmt.now pid }
{
    pmt.rows().iter().any(|row| row.elementary_pid == pid)
}

/// Whether the stream of this number has a PID that the program doesn't name.
pub fn is_unknown(streams: &[Stream], number: usize, pmt: &Pmt) -> bool
    ensures { result ≡ option_map_or
        (λ (s : Stream). not (is_elementary pmt.now s.pid) && not (pmt.now.pcr_pid == s.pid))
        (slice_get streams.now number) false }
{
    match streams.get(number) {
        Some(stream) => !is_elementary(pmt, stream.pid) && pmt.pcr_pid() != stream.pid,
        None => false,
    }
}
