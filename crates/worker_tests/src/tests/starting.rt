//! Workers over what a reader gives.

ghost use Rattle.std.specs.Prelude.{◌≡◌, [], IfOk};

use crate::tests::full_gate::FullGate;
use crate::tests::given_bytes::GivenBytes;
use anyhow::{Result, bail};
use example::{packets, plan_of};
use port::{FinishedPort, Port, RingEnd, ports};
use reading::{InputLimit, ReadSource, Report, Source};
use schedule::Schedule;
use std::alloc::Global;
use std::io::Read;
use std::sync::Wait;
use std::time::{Clock, Duration, Instant};
use waking::Sleeper;
use worker::{Gate, Wakes, Worker};

/// The two ends of a ring with room for so many packets, through which nothing went.
pub fn ring(alloc: Global, capacity: usize) -> Result<(Port, RingEnd)>
    ensures { IfOk result (λ r. r.0.sent ≡ []) }
{
    let (mut ports, mut ends) = ports(alloc, 1, capacity)?;
    match (ports.pop(), ends.pop()) {
        (Some(port), Some(end)) => Ok((port, end)),
        _ => bail!("no ring"),
    }
}

/// So many packets with the counters 0, 1, 2 and so on.
fn counted(alloc: Global, count: u8) -> Result<GivenBytes> {
    let mut counters = Vec::new(alloc);
    for counter in 0..count {
        counters.push(counter)?;
    }
    let bytes = packets(alloc, &counters)?;
    Ok(GivenBytes { bytes, at: 0 })
}

/// Runs a worker of the example's first input over so many packets with the counters 0, 1, 2 and so on.
pub fn run<T: Wait + Clock, G: Gate + Drop>(
    rt: &T,
    alloc: Global,
    port: Port,
    gate: G,
    count: u8,
) -> Result<(Report, FinishedPort, G)>
    requires { port.sent ≡ [] }
{
    run_over(rt, alloc, port, gate, counted(alloc, count)?)
}

/// The same of a worker that waits to be woken at a full ring, and which nobody wakes.
pub fn run_woken<T: Wait + Clock, G: Gate + Drop>(
    rt: &T,
    alloc: Global,
    port: Port,
    gate: G,
    count: u8,
) -> Result<(Report, FinishedPort, G)>
    requires { port.sent ≡ [] }
{
    let sleeper = Sleeper::new(alloc)?;
    let wakes = Wakes {
        taker: sleeper.waker(0)?,
        sleeper,
    };
    let source = ReadSource::new(counted(alloc, count)?);
    let worker = worker_of(alloc, port, gate, source)?;
    let (report, finished, _, gate) = worker.woken(wakes).run(rt);
    Ok((report, finished, gate))
}

/// Whether one of five runs ends within 200 milliseconds, of a worker that nobody wakes at a ring that stays full, and whose gate says no when
/// it is asked the 71st time: the worker sleeps before twenty of these.
pub fn asks_in_time<T: Wait + Clock>(rt: &T, alloc: Global) -> Result<bool> {
    for _run in 0..5 {
        let (port, _end) = ring(alloc, 1)?;
        let start = Instant::now(rt)?;
        let _left = run_woken(rt, alloc, port, FullGate::new(70), 5)?;
        let took = Instant::now(rt)?.saturating_duration_since(start);
        if took < Duration::from_millis(200) {
            return Ok(true);
        }
    }
    Ok(false)
}

/// The worker of the example's first input over a source.
fn worker_of<R: Source + Drop, G: Gate + Drop>(
    alloc: Global,
    port: Port,
    gate: G,
    source: R,
) -> Result<Worker<R, G>>
    requires { port.sent ≡ [] }
{
    let plan = plan_of(alloc, 64, &[0])?;
    if plan.inputs().is_empty() {
        bail!("no input");
    }
    let schedule = Schedule::single(alloc, plan);
    Ok(Worker::new(alloc, source, gate, port, schedule, 0, InputLimit::OfSize))
}

/// Runs a worker of the example's first input over what a reader gives.
pub fn run_over<T: Wait + Clock, R: Read + Drop, G: Gate + Drop>(
    rt: &T,
    alloc: Global,
    port: Port,
    gate: G,
    reader: R,
) -> Result<(Report, FinishedPort, G)>
    requires { port.sent ≡ [] }
{
    let worker = worker_of(alloc, port, gate, ReadSource::new(reader))?;
    let (report, finished, _, gate) = worker.run(rt);
    Ok((report, finished, gate))
}
