//! The workers of a run, from their start to their end.

ghost use Rattle.std.specs.Prelude.{◌≡◌, ◌≤◌, List, ℕ, [], length, map, vec_len, vec_capacity, OnOk};
ghost use Rattle.std.specs.List.{list_any};
ghost use Rattle.reading.specs.InputLimit.{IsAllowed};
ghost use Rattle.workers.specs.Crews.{AreUnsent, AreStarted, AreOfStation, AreEnded, wants_memory};

use crate::run_gate::RunGate;
use crate::work::{WorkHandle, start};
use outcome::Ended;
use port::Port;
use reading::{InputLimit, Report, Source, Stop};
use schedule::Schedule;
use signals::Signals;
use station::Station;
use std::alloc::{AllocError, Global};
use std::sync::Wait;
use std::thread::Threads;
use std::time::Clock;
use worker::{Gate, Worker};

/// Starts a worker for each input of a schedule, in their order, each of which may have as many bytes as `limit` says at its size.
/// `Err` is want of memory, or that no thread can be made; the threads that were started then run.
pub fn start_all<
    T: Threads + Wait + Clock + Copy + Send + Drop + 'static,
    R: Source + Send + Drop + 'static,
    G: Gate + Send + Drop + 'static,
>(
    alloc: Global,
    rt: T,
    schedule: &Schedule,
    limit: InputLimit,
    signals: &mut Signals,
    seats: Vec<((R, G), Port)>,
    handles: &mut Vec<WorkHandle<R, G>>,
) -> Result<(), AllocError>
    requires limit { IsAllowed limit }
    requires count { length seats.items ≤ length schedule.now.first.request.inputs }
    requires unsent { AreUnsent seats.items }
    requires none { handles.old.items ≡ [] }
    requires room { length seats.items ≤ vec_capacity handles.old }
    ensures started { AreStarted limit schedule.now seats.items
        (map (λ h. h.promise.worker.value) handles.new.items) }
    ensures all { OnOk result (length handles.new.items ≡ length seats.items) }
{
    for ((reader, gate), port) in seats {
        let gate = RunGate::new(gate, signals.over()?);
        let number = handles.len();
        let own = schedule.copy(alloc)?;
        let wakes = signals.worker(alloc)?;
        let worker = Worker::new(alloc, reader, gate, port, own, number, limit);
        let handle = start(rt, worker.woken(wakes))?;
        let Ok(()) = handles.push(handle) else {
            unreachable!()
        };
    }
    Ok(())
}

/// Joins the threads of the workers, and settles their ports.
pub fn join_all<T: Threads, R: Source + Drop, G: Gate + Drop>(
    rt: &T,
    station: &mut Station,
    handles: Vec<WorkHandle<R, G>>,
    ended: &mut Vec<Ended<(R, G)>>,
)
    requires none { ended.old.items ≡ [] }
    requires room { vec_len handles ≤ vec_capacity ended.old }
    requires station { AreOfStation station.old (map (λ h. h.promise.worker.value) handles.items) }
    ensures same { station.new ≡ station.old }
    ensures count { length ended.new.items ≡ length handles.items }
    ensures ended { AreEnded R.remaining R.failures station.old
        (map (λ h. h.promise.worker.value) handles.items) ended.new.items }
{
    station.known();
    for handle in handles {
        let (report, port, reader, gate) = handle.join(rt);
        let is_closed = station.is_closed(port.input());
        let _ = station.settle(port);
        let Ok(()) = ended.push(Ended {
            report,
            is_closed,
            lent: (reader, gate.given),
        }) else {
            unreachable!()
        };
    }
}

/// Whether a worker was stopped for want of memory.
fn wants_memory(report: &Report) -> bool
    ensures { result ≡ wants_memory report.now.stopped }
{
    matches!(report.stopped, Some(Stop::Memory))
}

/// Whether one of these workers was.
pub fn wanted_memory<R: Drop, G: Drop>(ended: &[Ended<(R, G)>]) -> bool
    ensures { result ≡ list_any (λ e. wants_memory e.report.stopped) ended.now }
{
    ended.iter().any(|input| wants_memory(&input.report))
}
