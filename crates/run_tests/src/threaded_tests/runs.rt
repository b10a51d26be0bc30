//! Runs in threads and in one thread.

ghost use Rattle.std.specs.Prelude.{◌^◌, ◌≤◌};

use crate::threaded_tests::devices::KeptBytes;
use crate::threaded_tests::inputs::Inputs;
use anyhow::{Result, bail};
use outlet::WriteSink;
use reading::InputLimit;
use schedule::Schedule;
use serial::{Summary, run_serial};
use std::alloc::Global;
use std::sync::Wait;
use std::thread::Threads;
use std::time::Clock;
use threaded::run_threads;
use worker::Gate;

/// Runs these inputs by a schedule in threads, for at most this many slots: what was written, what became of it, and the gates that
/// came back.
pub fn run_gated<
    T: Threads + Wait + Clock + Copy + Send + Drop + 'static,
    G: Gate + Send + Drop + 'static,
>(
    alloc: Global,
    rt: T,
    schedule: Schedule,
    slots: u64,
    inputs: Inputs,
    gates: Vec<G>,
) -> Result<(Vec<u8>, Summary, Vec<G>)>
    requires { slots ≤ 2 ^ 40 }
{
    let readers = inputs.readers(alloc)?;
    if schedule.plan(0).inputs().len() != readers.len() || gates.len() != readers.len() {
        bail!("the plan has another number of inputs");
    }
    let sink = WriteSink::new(KeptBytes::new(alloc));
    let limit = InputLimit::OfSize;
    let (sink, result) = run_threads(alloc, rt, schedule, slots, limit, readers, gates, sink);
    let (summary, lent) = result?;
    Ok((sink.into_inner().bytes, summary, gates_of(alloc, lent)?))
}

/// The gates of what came back.
fn gates_of<R: Drop, G: Drop>(alloc: Global, lent: Vec<(R, G)>) -> Result<Vec<G>> {
    let mut gates = Vec::new(alloc);
    for (_, gate) in lent {
        gates.push(gate)?;
    }
    Ok(gates)
}

/// What the run by a schedule in one thread writes of the same inputs, in at most this many slots.
pub fn written_in_one(
    alloc: Global,
    schedule: &Schedule,
    slots: u64,
    inputs: Inputs,
) -> Result<Vec<u8>>
    requires { slots ≤ 2 ^ 40 }
{
    let (schedule, readers) = (schedule.copy(alloc)?, inputs.readers(alloc)?);
    if schedule.plan(0).inputs().len() != readers.len() {
        bail!("the plan has another number of inputs");
    }
    let sink = WriteSink::new(KeptBytes::new(alloc));
    let (sink, result) = run_serial(alloc, schedule, slots, readers, sink);
    let _ = result?;
    Ok(sink.into_inner().bytes)
}
