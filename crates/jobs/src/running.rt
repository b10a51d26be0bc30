//! Running a measured multiplex.

ghost use Rattle.std.specs.Prelude.{◌≡◌, length};

use crate::digest::Digest;
use crate::made_input::MadeInput;
use crate::made_reader::MadeReader;
use crate::measured_run::{MeasuredRun, check};
use crate::multiplex::Multiplex;
use crate::planned::plan_of;
use crate::stream_maker::StreamMaker;
use anyhow::{Result, bail};
use outlet::{RunFault, WriteSink};
use plan::Plan;
use reading::{InputLimit, ReadSource};
use schedule::Schedule;
use serial::{Summary, run_serial_within};
use std::alloc::Global;
use std::sync::Wait;
use std::thread::Threads;
use std::time::Clock;
use threaded::run_threads;
use worker::OpenGate;

/// The most slots and the most bytes of an input that a run may have.
const SLOTS: u64 = 1 << 40;

const LIMIT: InputLimit = InputLimit::Bytes(1 << 47);

/// What an input is read from.
type Reader = ReadSource<MadeReader<StreamMaker>>;

/// The digest of the output, and what became of a run.
type Ran = (Digest, Result<Summary, RunFault>);

/// The inputs of a multiplex.
fn inputs_of(alloc: Global, multiplex: Multiplex, seed: u64) -> Result<Vec<MadeInput>> {
    let mut inputs = Vec::new(alloc);
    for number in 0..multiplex.inputs {
        let input = MadeInput::new(alloc, multiplex.shape, multiplex.taken, seed, number)?;
        inputs.push(input)?;
    }
    Ok(inputs)
}

/// What the inputs are read from.
fn readers_of(alloc: Global, inputs: &[MadeInput], seconds: u64) -> Result<Vec<Reader>> {
    let mut readers = Vec::new(alloc);
    for input in inputs {
        readers.push(ReadSource::new(input.reader(alloc, seconds)?))?;
    }
    Ok(readers)
}

/// Runs a plan in one thread.
fn run_alone(alloc: Global, plan: Plan, readers: Vec<Reader>) -> Ran
    requires { length readers.items ≡ length plan.request.inputs }
{
    let sink = WriteSink::new(Digest::new());
    let schedule = Schedule::single(alloc, plan);
    let (sink, result) = run_serial_within(alloc, schedule, SLOTS, LIMIT, readers, sink);
    (sink.into_inner(), result.map(|(summary, _)| summary))
}

/// Runs a plan in threads.
fn run_together<T: Threads + Wait + Clock + Copy + Send + Drop + 'static>(
    alloc: Global,
    rt: T,
    plan: Plan,
    readers: Vec<Reader>,
) -> Ran
    requires { length readers.items ≡ length plan.request.inputs }
{
    let Ok(gates) = vec![in alloc; OpenGate; readers.len()] else {
        return (Digest::new(), Err(RunFault::Memory));
    };
    let sink = WriteSink::new(Digest::new());
    let schedule = Schedule::single(alloc, plan);
    let (sink, result) = run_threads(alloc, rt, schedule, SLOTS, LIMIT, readers, gates, sink);
    (sink.into_inner(), result.map(|(summary, _)| summary))
}

/// Makes a multiplex of inputs of so many seconds.
pub fn run_multiplex<T: Threads + Wait + Clock + Copy + Send + Drop + 'static>(
    alloc: Global,
    rt: T,
    multiplex: Multiplex,
    seed: u64,
    seconds: u64,
) -> Result<MeasuredRun> {
    let inputs = inputs_of(alloc, multiplex, seed)?;
    let plan = plan_of(alloc, multiplex, &inputs)?;
    let readers = readers_of(alloc, &inputs, seconds)?;
    if plan.inputs().len() != readers.len() {
        bail!("the plan has another number of inputs");
    }
    let kept = Schedule::single(alloc, plan.copy(alloc)?);
    let (digest, result) = if multiplex.is_serial {
        run_alone(alloc, plan, readers)
    } else {
        run_together(alloc, rt, plan, readers)
    };
    let Ok(summary) = result else {
        bail!("the run had a fault");
    };
    let measured = MeasuredRun {
        schedule: kept,
        summary,
        digest,
    };
    check(&measured)?;
    Ok(measured)
}
