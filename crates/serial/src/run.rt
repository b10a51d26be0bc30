//! A whole run.

ghost use Rattle.std.specs.Prelude.{◌≡◌, ◌^◌, ◌≤◌, ℕ, List, length, map, Err, IfOk, IfErr, OnOk};
ghost use Rattle.mux.specs.declared.event.Event.{Event};
ghost use Rattle.reading.specs.Failures.{FailsOnce};
ghost use Rattle.reading.specs.InputLimit.{IsAllowed};
ghost use Rattle.reading.specs.declared.input_limit.InputLimit.TheVariants.{OfSize};
ghost use Rattle.outcome.specs.Outcome.{FailuresAreTold};
ghost use Rattle.serial.specs.Outcome.{HasRun, HasBegun};

use crate::serial_run::SerialRun;
use outcome::Summary;
use outlet::{RunFault, Sink};
use reading::{InputLimit, Source};
use schedule::Schedule;
use std::alloc::Global;

/// Runs a schedule in one thread: reads one reader an input, which may have at most 3,154,116,608 bytes, or 3,422,552,064 where its
/// packets stand 204 bytes apart, and writes the packet of each slot, at most so many slots (0 to 2^40). It ends where all inputs
/// have ended and nothing waits, or where it has all its slots.
///
/// A packet is taken only where the multiplex waits for its input. Before each read all that was sent is written. The writer comes
/// back, and without a fault the readers too, in their order. `Memory` is answered for want of memory, where no write failed, and
/// `Write` where a write failed; what was written is then a beginning of a sound multiplex. A reader that fails ends its input, and
/// the run goes on.
pub fn run_serial<R: Source + Drop, W: Sink>(
    alloc: Global,
    schedule: Schedule,
    slots: u64,
    readers: Vec<R>,
    writer: W,
) -> (W, Result<(Summary, Vec<R>), RunFault>)
    requires slots { slots ≤ 2 ^ 40 }
    requires readers { length readers.items ≡ length schedule.first.request.inputs }
    ensures runs { IfOk result.1 (λ done. (h : List Event)
        × HasRun (record { run = record { schedule = schedule; limit = slots }; events = h }) OfSize
        (map R.remaining readers.items) (map R.remaining done.1.items)
        (W.contents writer) (W.contents result.0) done.0) }
    ensures begins { IfErr result.1 (λ fault. (h : List Event)
        × HasBegun R.remaining R.failures (record { run = record { schedule = schedule; limit = slots }; events = h }) OfSize
        readers.items (W.contents writer) (W.contents result.0) fault) }
    ensures readers { IfOk result.1 (λ done. length done.1.items ≡ length readers.items) }
    ensures read_failed { IfOk result.1 (λ done.
        FailuresAreTold R.failures readers.items done.1.items done.0.inputs.items) }
    ensures wrote { OnOk result.1 (W.failures result.0 ≡ W.failures writer) }
    ensures memory { result.1 ≡ Err RunFault.Memory → W.failures result.0 ≡ W.failures writer }
    ensures write_failed { result.1 ≡ Err RunFault.Write → FailsOnce (W.failures writer) (W.failures result.0) }
{
    run_serial_within(alloc, schedule, slots, InputLimit::OfSize, readers, writer)
}

/// The same with inputs of at most as many bytes as `limit` says: up to 140,737,488,355,328.
pub fn run_serial_within<R: Source + Drop, W: Sink>(
    alloc: Global,
    schedule: Schedule,
    slots: u64,
    limit: InputLimit,
    readers: Vec<R>,
    writer: W,
) -> (W, Result<(Summary, Vec<R>), RunFault>)
    requires slots { slots ≤ 2 ^ 40 }
    requires limit { IsAllowed limit }
    requires readers { length readers.items ≡ length schedule.first.request.inputs }
    ensures runs { IfOk result.1 (λ done. (h : List Event)
        × HasRun (record { run = record { schedule = schedule; limit = slots }; events = h }) limit
        (map R.remaining readers.items) (map R.remaining done.1.items)
        (W.contents writer) (W.contents result.0) done.0) }
    ensures begins { IfErr result.1 (λ fault. (h : List Event)
        × HasBegun R.remaining R.failures (record { run = record { schedule = schedule; limit = slots }; events = h }) limit
        readers.items (W.contents writer) (W.contents result.0) fault) }
    ensures readers { IfOk result.1 (λ done. length done.1.items ≡ length readers.items) }
    ensures read_failed { IfOk result.1 (λ done.
        FailuresAreTold R.failures readers.items done.1.items done.0.inputs.items) }
    ensures wrote { OnOk result.1 (W.failures result.0 ≡ W.failures writer) }
    ensures memory { result.1 ≡ Err RunFault.Memory → W.failures result.0 ≡ W.failures writer }
    ensures write_failed { result.1 ≡ Err RunFault.Write → FailsOnce (W.failures writer) (W.failures result.0) }
{
    let mut sink = writer;
    let result = run_to(alloc, schedule, slots, limit, readers, &mut sink);
    (sink, result)
}

/// The same, with the writer lent.
fn run_to<R: Source + Drop, W: Sink>(
    alloc: Global,
    schedule: Schedule,
    slots: u64,
    limit: InputLimit,
    readers: Vec<R>,
    sink: &mut W,
) -> Result<(Summary, Vec<R>), RunFault>
    requires slots { slots ≤ 2 ^ 40 }
    requires limit { IsAllowed limit }
    requires readers { length readers.items ≡ length schedule.first.request.inputs }
    ensures runs { IfOk result (λ done. (h : List Event)
        × HasRun (record { run = record { schedule = schedule; limit = slots }; events = h }) limit
        (map R.remaining readers.items) (map R.remaining done.1.items)
        (W.contents sink.old) (W.contents sink.new) done.0) }
    ensures begins { IfErr result (λ fault. (h : List Event)
        × HasBegun R.remaining R.failures (record { run = record { schedule = schedule; limit = slots }; events = h }) limit
        readers.items (W.contents sink.old) (W.contents sink.new) fault) }
    ensures readers { IfOk result (λ done. length done.1.items ≡ length readers.items) }
    ensures read_failed { IfOk result (λ done.
        FailuresAreTold R.failures readers.items done.1.items done.0.inputs.items) }
    ensures wrote { OnOk result (W.failures sink.new ≡ W.failures sink.old) }
    ensures memory { result ≡ Err RunFault.Memory → W.failures sink.new ≡ W.failures sink.old }
    ensures write_failed { result ≡ Err RunFault.Write → FailsOnce (W.failures sink.old) (W.failures sink.new) }
{
    schedule.known();
    let mut run = SerialRun::open(alloc, schedule, slots, limit, readers)?;
    let driven = run.drive(sink);
    run.known();
    driven?;
    Ok(run.finish(alloc)?)
}
