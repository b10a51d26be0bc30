//! The streams of all plans, and where each stands among them.

ghost use Rattle.std.specs.Prelude.{◌≡◌, map, IfOk};
ghost use Rattle.schedule.specs.Schedule.{schedule_of};
ghost use Rattle.schedule.specs.Streams.{has_output, new_of, all_streams, place_of};
ghost use Rattle.schedule.specs.Keeping.{streams_kept, places_in, places_of, places_kept};

use plan::Plan;
use request::Stream;
use std::alloc::{AllocError, Global};

/// Whether one of these streams has an output PID.
fn has_output(streams: &[Stream], pid: u16) -> bool
    ensures { result ≡ has_output streams.now pid }
{
    streams.iter().any(|stream| stream.output_pid == pid)
}

/// The place of the stream with this output PID.
fn place_of(streams: &[Stream], pid: u16) -> Option<usize>
    ensures { result ≡ place_of streams.now pid }
{
    streams.iter().position(|stream| stream.output_pid == pid)
}

/// Those of a plan's streams whose output PID none of the known ones has.
fn new_of(alloc: Global, known: &[Stream], streams: &[Stream]) -> Result<Vec<Stream>, AllocError>
    ensures { IfOk result (λ new. new.items ≡ new_of known.now streams.now) }
{
    let mut new = Vec::new(alloc);
    for stream in streams {
        if !has_output(known, stream.output_pid) {
            new.push(*stream)?;
        }
    }
    Ok(new)
}

/// Each stream of the plans once, in their order.
fn all_streams(
    alloc: Global,
    first: &Plan,
    later: &[(u64, Plan)],
) -> Result<Vec<Stream>, AllocError>
    ensures { IfOk result (λ all. all.items ≡ all_streams (schedule_of first.now later.now)) }
{
    let mut all = first.streams().to_vec(alloc)?;
    for after in later {
        let new = new_of(alloc, &all, after.1.streams())?;
        all.extend_from_slice(&new)?;
    }
    Ok(all)
}

/// The place of each of a plan's streams among all.
fn places_in(
    alloc: Global,
    all: &[Stream],
    streams: &[Stream],
) -> Result<Vec<Option<usize>>, AllocError>
    ensures { IfOk result (λ places. places.items ≡ places_in all.now streams.now) }
{
    let mut places = Vec::with_capacity(alloc, streams.len())?;
    for stream in streams {
        places.push(place_of(all, stream.output_pid))?;
    }
    Ok(places)
}

/// The same of the streams of each plan.
fn all_places(
    alloc: Global,
    all: &[Stream],
    first: &Plan,
    later: &[(u64, Plan)],
) -> Result<Vec<Vec<Option<usize>>>, AllocError>
    requires { all.now ≡ all_streams (schedule_of first.now later.now) }
    ensures { IfOk result (λ places. map (λ v. v.items) places.items ≡ places_of (schedule_of first.now later.now)) }
{
    let mut places = Vec::new(alloc);
    places.push(places_in(alloc, all, first.streams())?)?;
    for after in later {
        places.push(places_in(alloc, all, after.1.streams())?)?;
    }
    Ok(places)
}

/// All streams, where there is more than one plan.
pub(crate) fn kept_streams(
    alloc: Global,
    first: &Plan,
    later: &[(u64, Plan)],
) -> Result<Vec<Stream>, AllocError>
    ensures { IfOk result (λ streams. streams.items ≡ streams_kept first.now later.now) }
{
    if later.is_empty() {
        return Ok(Vec::new(alloc));
    }
    all_streams(alloc, first, later)
}

/// The place of each plan's streams among these, where there is more than one plan.
pub(crate) fn kept_places(
    alloc: Global,
    streams: &[Stream],
    first: &Plan,
    later: &[(u64, Plan)],
) -> Result<Vec<Vec<Option<usize>>>, AllocError>
    requires { streams.now ≡ streams_kept first.now later.now }
    ensures { IfOk result (λ places. map (λ v. v.items) places.items ≡ places_kept first.now later.now) }
{
    if later.is_empty() {
        return Ok(Vec::new(alloc));
    }
    all_places(alloc, streams, first, later)
}
