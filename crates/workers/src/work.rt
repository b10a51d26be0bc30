//! Workers in threads of their own.

ghost use Rattle.std.specs.Prelude.{◌≡◌, IfOk};
ghost use Rattle.workers.specs.Working.{IsWorkOf};

use crate::run_gate::RunGate;
use port::FinishedPort;
use reading::{Report, Source};
use std::alloc::AllocError;
use std::snapshot::Snapshot;
use std::sync::Wait;
use std::thread;
use std::thread::{Promise, PromisedHandle, Threads};
use std::time::Clock;
use worker::{Gate, Worker};

/// What the thread of a worker promises of what it hands back: the contract of the worker.
#[derive(Drop)]
pub struct WorkOf<R: Source + Drop, G: Gate + Drop> {
    pub worker: Snapshot<Worker<R, RunGate<G>>>,
}

impl<R: Source + Drop, G: Gate + Drop> Promise<(Report, FinishedPort, R, RunGate<G>)>
    for WorkOf<R, G> {
    ghost use Rattle.workers.specs.Working.{IsWorkOf};

    ghost kept_by = { λ p r. IsWorkOf R.remaining R.failures p.worker.value r.0 r.1 r.2 };
}

/// The thread of a worker.
pub type WorkHandle<R, G> = PromisedHandle<(Report, FinishedPort, R, RunGate<G>), WorkOf<R, G>>;

/// Starts the thread of a worker. `Err` is answered where no thread can be made.
pub(crate) fn start<
    T: Threads + Wait + Clock + Copy + Send + Drop + 'static,
    R: Source + Send + Drop + 'static,
    G: Gate + Send + Drop + 'static,
>(rt: T, worker: Worker<R, RunGate<G>>) -> Result<WorkHandle<R, G>, AllocError>
    ensures { IfOk result (λ h. h.promise.worker.value ≡ worker) }
{
    let promise = WorkOf {
        worker: Snapshot::of(&worker),
    };
    match thread::spawn_with(
        &rt,
        promise,
        move || -> (Report, FinishedPort, R, RunGate<G>)
            ensures { IsWorkOf R.remaining R.failures worker result.0 result.1 result.2 }
        { worker.run(&rt) },
    ) {
        Ok(handle) => Ok(handle),
        Err(_) => Err(AllocError),
    }
}
