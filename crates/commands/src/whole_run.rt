//! The runs of a schedule: in threads, and in one thread alone.

ghost use Rattle.std.specs.Prelude.{◌≡◌, ◌⊎◌, ◌^◌, ◌≤◌, List, true, false, length, map, Err, IfOk, IfErr, OnOk};
ghost use Rattle.mux.specs.declared.event.Event.{Event};
ghost use Rattle.reading.specs.Failures.{FailsOnce};
ghost use Rattle.reading.specs.InputLimit.{IsAllowed};
ghost use Rattle.outcome.specs.Outcome.{HasRun as HasRunInThreads, FailuresAreTold};
ghost use Rattle.serial.specs.Outcome.{HasRun as HasRunInOneThread, HasBegun as HasBegunInOneThread};
ghost use Rattle.threaded.specs.Outcome.{HasBegun as HasBegunInThreads};

use outlet::{RunFault, Sink};
use reading::{InputLimit, Source};
use schedule::Schedule;
use serial::{Summary, run_serial_within};
use std::alloc::{AllocError, Global};
use std::sync::Wait;
use std::thread::Threads;
use std::time::Clock;
use threaded::run_threads;
use worker::OpenGate;

/// Runs a schedule, in one thread alone if `is_serial`, and else with a thread for each input and one for the output: reads one reader an
/// input, at most as many bytes of each as `limit` says at the input's size (up to 140,737,488,355,328), and writes the packet of
/// each slot, at most so many slots (0 to 2^40).
///
/// The writer comes back, and without a fault what became of the run and the readers, in their order. `Memory` is answered where
/// memory or a thread was refused, and no write failed before, and by a run in threads also where a write failed and an input wanted
/// memory; `Write` where a write failed and no input did. What was written is then a beginning of a sound multiplex.
pub(crate) fn run_schedule<
    T: Threads + Wait + Clock + Copy + Send + Drop + 'static,
    R: Source + Send + Drop + 'static,
    W: Sink + Send + Drop + 'static,
>(
    rt: T,
    alloc: Global,
    is_serial: bool,
    schedule: Schedule,
    slots: u64,
    limit: InputLimit,
    readers: Vec<R>,
    writer: W,
) -> (W, Result<(Summary, Vec<R>), RunFault>)
    requires slots { slots ≤ 2 ^ 40 }
    requires limit { IsAllowed limit }
    requires readers { length readers.items ≡ length schedule.first.request.inputs }
    ensures serial { is_serial ≡ true → IfOk result.1 (λ done. (h : List Event)
        × HasRunInOneThread (record { run = record { schedule = schedule; limit = slots }; events = h }) limit
        (map R.remaining readers.items) (map R.remaining done.1.items)
        (W.contents writer) (W.contents result.0) done.0) }
    ensures threads { is_serial ≡ false → IfOk result.1 (λ done. (h : List Event)
        × HasRunInThreads (record { run = record { schedule = schedule; limit = slots }; events = h }) limit
        (map R.remaining readers.items) (map R.remaining done.1.items)
        (W.contents writer) (W.contents result.0) done.0) }
    ensures serial_begins { is_serial ≡ true → IfErr result.1 (λ fault. (h : List Event)
        × HasBegunInOneThread R.remaining R.failures (record { run = record { schedule = schedule; limit = slots }; events = h }) limit
        readers.items (W.contents writer) (W.contents result.0) fault) }
    ensures threads_begins { is_serial ≡ false → IfErr result.1 (λ fault. (h : List Event)
        × HasBegunInThreads R.remaining R.failures (record { run = record { schedule = schedule; limit = slots }; events = h }) limit
        readers.items (W.contents writer) (W.contents result.0) (W.failures writer) (W.failures result.0) fault) }
    ensures readers { IfOk result.1 (λ done. length done.1.items ≡ length readers.items) }
    ensures read_failed { IfOk result.1 (λ done.
        FailuresAreTold R.failures readers.items done.1.items done.0.inputs.items) }
    ensures wrote { OnOk result.1 (W.failures result.0 ≡ W.failures writer) }
    ensures serial_memory { is_serial ≡ true → result.1 ≡ Err RunFault.Memory → W.failures result.0 ≡ W.failures writer }
    ensures threads_memory { is_serial ≡ false → result.1 ≡ Err RunFault.Memory → (W.failures result.0 ≡ W.failures writer)
        ⊎ FailsOnce (W.failures writer) (W.failures result.0) }
    ensures write_failed { result.1 ≡ Err RunFault.Write → FailsOnce (W.failures writer) (W.failures result.0) }
{
    if is_serial {
        run_serial_within(alloc, schedule, slots, limit, readers, writer)
    } else {
        run_in_threads(rt, alloc, schedule, slots, limit, readers, writer)
    }
}

/// Runs a schedule with a thread for each input, whose gates never say no, and one for the output.
fn run_in_threads<
    T: Threads + Wait + Clock + Copy + Send + Drop + 'static,
    R: Source + Send + Drop + 'static,
    W: Sink + Send + Drop + 'static,
>(
    rt: T,
    alloc: Global,
    schedule: Schedule,
    slots: u64,
    limit: InputLimit,
    readers: Vec<R>,
    writer: W,
) -> (W, Result<(Summary, Vec<R>), RunFault>)
    requires slots { slots ≤ 2 ^ 40 }
    requires limit { IsAllowed limit }
    requires readers { length readers.items ≡ length schedule.first.request.inputs }
    ensures runs { IfOk result.1 (λ done. (h : List Event)
        × HasRunInThreads (record { run = record { schedule = schedule; limit = slots }; events = h }) limit
        (map R.remaining readers.items) (map R.remaining done.1.items)
        (W.contents writer) (W.contents result.0) done.0) }
    ensures begins { IfErr result.1 (λ fault. (h : List Event)
        × HasBegunInThreads R.remaining R.failures (record { run = record { schedule = schedule; limit = slots }; events = h }) limit
        readers.items (W.contents writer) (W.contents result.0) (W.failures writer) (W.failures result.0) fault) }
    ensures readers { IfOk result.1 (λ done. length done.1.items ≡ length readers.items) }
    ensures read_failed { IfOk result.1 (λ done.
        FailuresAreTold R.failures readers.items done.1.items done.0.inputs.items) }
    ensures wrote { OnOk result.1 (W.failures result.0 ≡ W.failures writer) }
    ensures memory { result.1 ≡ Err RunFault.Memory → (W.failures result.0 ≡ W.failures writer)
        ⊎ FailsOnce (W.failures writer) (W.failures result.0) }
    ensures write_failed { result.1 ≡ Err RunFault.Write → FailsOnce (W.failures writer) (W.failures result.0) }
{
    schedule.known();
    let Ok(gates) = vec![in alloc; OpenGate; readers.len()] else {
        return (writer, Err(RunFault::Memory));
    };
    match run_threads(alloc, rt, schedule, slots, limit, readers, gates, writer) {
        (writer, Ok((summary, lent))) => match without_gates(alloc, lent) {
            Ok(readers) => (writer, Ok((summary, readers))),
            Err(_) => (writer, Err(RunFault::Memory)),
        },
        (writer, Err(fault)) => (writer, Err(fault)),
    }
}

/// The readers alone, in their order.
fn without_gates<R: Drop>(alloc: Global, lent: Vec<(R, OpenGate)>) -> Result<Vec<R>, AllocError>
    ensures { IfOk result (λ readers. readers.items ≡ map (λ pair. pair.0) lent.items) }
{
    lent.into_iter().map(|(reader, _)| reader).collect(alloc)
}
