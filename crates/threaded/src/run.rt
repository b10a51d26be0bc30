//! A whole run.

ghost use Rattle.std.specs.Prelude.{◌≡◌, ◌⊎◌, ◌^◌, ◌≤◌, List, length, map, Err, IfOk, IfErr, OnOk};
ghost use Rattle.mux.specs.declared.event.Event.{Event};
ghost use Rattle.reading.specs.Failures.{FailsOnce};
ghost use Rattle.reading.specs.InputLimit.{IsAllowed};
ghost use Rattle.outcome.specs.Outcome.{HasRun, FailuresAreTold};
ghost use Rattle.threaded.specs.Outcome.{HasBegun};

use crate::opening::{Opening, open};
use crate::telling::tell;
use crate::working::work;
use outcome::Summary;
use outlet::{Outlet, RunFault, Sink};
use reading::{InputLimit, Source};
use schedule::Schedule;
use std::alloc::Global;
use std::sync::Wait;
use std::thread::Threads;
use std::time::Clock;
use worker::Gate;
use workers::join_all;

/// Runs a schedule in threads: reads one reader an input, each in a thread of its own and at most as many bytes of each as `limit` says
/// at the input's size (up to 140,737,488,355,328), and analyses and writes the packet of each slot in one thread more, at most so
/// many slots (0 to 2^40). It ends where all inputs have ended and nothing waits, or where it has all its slots. What goes out is
/// written 65,424 bytes at a time, or sooner: before that thread, which finds no packets to come, sleeps twice in a row.
///
/// Each input has a gate, which is asked before each read, after each packet that went into the input's ring, and after each
/// packet or end mark that found it full. Where it says no the input is read no further and left open, so a run whose gates
/// say no need not end. The writer comes back, and without a fault the readers and gates too, in their order.
/// `Memory` is answered where memory or a thread was refused before any write failed, and where the worker of an input wanted
/// memory, also where a write failed. `Write` is answered where the writer failed and no worker wanted memory. What was written is
/// then a beginning of the output. A reader that fails ends its input, and the run goes on.
pub fn run_threads<
    T: Threads + Wait + Clock + Copy + Send + Drop + 'static,
    R: Source + Send + Drop + 'static,
    G: Gate + Send + Drop + 'static,
    W: Sink + Send + Drop + 'static,
>(
    alloc: Global,
    rt: T,
    schedule: Schedule,
    slots: u64,
    limit: InputLimit,
    readers: Vec<R>,
    gates: Vec<G>,
    writer: W,
) -> (W, Result<(Summary, Vec<(R, G)>), RunFault>)
    requires slots { slots ≤ 2 ^ 40 }
    requires limit { IsAllowed limit }
    requires readers { length readers.items ≡ length schedule.first.request.inputs }
    requires gates { length gates.items ≡ length schedule.first.request.inputs }
    ensures runs { IfOk result.1 (λ done. (h : List Event)
        × HasRun (record { run = record { schedule = schedule; limit = slots }; events = h }) limit
        (map R.remaining readers.items) (map (λ lent. R.remaining lent.0) done.1.items)
        (W.contents writer) (W.contents result.0) done.0) }
    ensures begins { IfErr result.1 (λ fault. (h : List Event)
        × HasBegun R.remaining R.failures (record { run = record { schedule = schedule; limit = slots }; events = h }) limit
        readers.items (W.contents writer) (W.contents result.0) (W.failures writer) (W.failures result.0) fault) }
    ensures lent { IfOk result.1 (λ done. length done.1.items ≡ length readers.items) }
    ensures read_failed { IfOk result.1 (λ done.
        FailuresAreTold R.failures readers.items (map (λ lent. lent.0) done.1.items) done.0.inputs.items) }
    ensures wrote { OnOk result.1 (W.failures result.0 ≡ W.failures writer) }
    ensures memory { result.1 ≡ Err RunFault.Memory → (W.failures result.0 ≡ W.failures writer)
        ⊎ FailsOnce (W.failures writer) (W.failures result.0) }
    ensures write_failed { result.1 ≡ Err RunFault.Write → FailsOnce (W.failures writer) (W.failures result.0) }
{
    schedule.known();
    let Ok(opening) = open(alloc, &schedule, slots, readers, gates) else {
        return (writer, Err(RunFault::Memory));
    };
    let Opening {
        mut station,
        seats,
        output,
        mut signals,
        told,
        mut handles,
        mut ended,
    } = opening;
    let outlet = Outlet {
        output,
        sink: writer,
    };
    let (outlet, driven) = work(
        alloc,
        rt,
        &schedule,
        limit,
        &mut signals,
        told,
        seats,
        &mut handles,
        &mut station,
        outlet,
    );
    signals.end();
    join_all(&rt, &mut station, handles, &mut ended);
    station.known();
    tell(alloc, &station, driven, ended, outlet)
}
