//! The workers of a run at work, while its slots are sent.

ghost use Rattle.std.specs.Prelude.{◌≡◌, ◌⊎◌, ◌≤◌, [], length, vec_capacity, map, Err, OnOk, OnErr};
ghost use Rattle.reading.specs.InputLimit.{IsAllowed};
ghost use Rattle.workers.specs.Crews.{AreUnsent, AreStarted};
ghost use Rattle.handing.specs.Driving.{Drives};

use handing::{Passage, send_out};
use outlet::{Outlet, RunFault, Sink};
use port::Port;
use reading::{InputLimit, Source};
use schedule::Schedule;
use signals::{OutputSignals, Signals};
use station::Station;
use std::alloc::Global;
use std::sync::Wait;
use std::thread::Threads;
use std::time::Clock;
use worker::Gate;
use workers::{WorkHandle, start_all};

/// Starts the workers, and ticks to the end of the run.
#[tactic(auto, using(handing::proofs::DrivingLaws::drives_nowhere))]
pub(crate) fn work<
    T: Threads + Wait + Clock + Copy + Send + Drop + 'static,
    R: Source + Send + Drop + 'static,
    G: Gate + Send + Drop + 'static,
    W: Sink + Send + Drop + 'static,
>(
    alloc: Global,
    rt: T,
    schedule: &Schedule,
    limit: InputLimit,
    signals: &mut Signals,
    told: OutputSignals,
    seats: Vec<((R, G), Port)>,
    handles: &mut Vec<WorkHandle<R, G>>,
    station: &mut Station,
    outlet: Outlet<W>,
) -> (Outlet<W>, Result<(), RunFault>)
    requires limit { IsAllowed limit }
    requires count { length seats.items ≤ length schedule.now.first.request.inputs }
    requires unsent { AreUnsent seats.items }
    requires none { handles.old.items ≡ [] }
    requires room { length seats.items ≤ vec_capacity handles.old }
    ensures started { AreStarted limit schedule.now seats.items (map (λ h. h.promise.worker.value) handles.new.items) }
    ensures all { OnOk result.1 (length handles.new.items ≡ length seats.items) }
    ensures some { OnErr result.1 ((length handles.new.items ≡ length seats.items) ⊎ (station.new ≡ station.old)) }
    ensures crewed { result.1 ≡ Err RunFault.Write → length handles.new.items ≡ length seats.items }
    ensures drives { Drives W.contents W.failures station.old station.new outlet result.0 result.1 }
{
    let Ok(passage) = Passage::open(alloc, told) else {
        return (outlet, Err(RunFault::Memory));
    };
    if start_all(alloc, rt, schedule, limit, signals, seats, handles).is_err() {
        return (outlet, Err(RunFault::Memory));
    }
    send_out(rt, station, passage, signals, outlet)
}
