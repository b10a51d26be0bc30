//! Runs whose gates hold their inputs back by random numbers: each writes what the run in one thread writes. A test makes 125 of
//! them, so that it ends in time on a machine that is busy.

use crate::threaded_tests::inputs::Inputs;
use crate::threaded_tests::runs::{run_gated, written_in_one};
use crate::threaded_tests::turn_gates::RandomGate;
use anyhow::Result;
use example::plan_with_rings;
use schedule::Schedule;
use std::alloc::Global;
use std::ops::Range;
use std::process::Abort;
use std::sync::Wait;
use std::test::Fail;
use std::thread::Threads;
use std::time::Clock;

/// The inputs of each run.
const INPUTS: Inputs = Inputs {
    count: 2,
    packets: 5,
};

/// The runs with these numbers, through queues and rings of so many packets.
fn run_random<T: Threads + Wait + Clock + Abort + Copy + Send + Drop + 'static>(
    alloc: Global,
    rt: T,
    room: usize,
    runs: Range<u64>,
) -> Result<()> {
    let schedule = Schedule::single(alloc, plan_with_rings(alloc, room, room, &[0, 0])?);
    let serial_bytes = written_in_one(alloc, &schedule, 1_000, INPUTS)?;
    // Four table packets and ten of the inputs.
    assert_eq!(rt; serial_bytes.len(), 2_632);
    write_random(alloc, rt, &schedule, &serial_bytes, runs)
}

/// The runs with these numbers by a schedule write these bytes.
fn write_random<T: Threads + Wait + Clock + Abort + Copy + Send + Drop + 'static>(
    alloc: Global,
    rt: T,
    schedule: &Schedule,
    serial_bytes: &[u8],
    runs: Range<u64>,
) -> Result<()> {
    for run in runs {
        let gates = vec![in alloc; RandomGate::new(run, 0), RandomGate::new(run, 1)]?;
        let schedule = schedule.copy(alloc)?;
        let (bytes, _, _) = run_gated(alloc, rt, schedule, 1_000, INPUTS, gates)?;
        assert!(rt; bytes.as_slice() == serial_bytes, "run {run}");
    }
    Ok(())
}

#[test]
fn runs_0_to_124_through_rings_of_one_packet_write_the_same(rt: HostRuntime) -> Result<(), Fail> {
    Ok(run_random(rt.alloc(), rt, 1, 0..125)?)
}

#[test]
fn runs_125_to_249_through_rings_of_one_packet_write_the_same(rt: HostRuntime) -> Result<(), Fail> {
    Ok(run_random(rt.alloc(), rt, 1, 125..250)?)
}

#[test]
fn runs_0_to_124_through_rings_of_two_packets_write_the_same(rt: HostRuntime) -> Result<(), Fail> {
    Ok(run_random(rt.alloc(), rt, 2, 0..125)?)
}

#[test]
fn runs_125_to_249_through_rings_of_two_packets_write_the_same(
    rt: HostRuntime,
) -> Result<(), Fail> {
    Ok(run_random(rt.alloc(), rt, 2, 125..250)?)
}

#[test]
fn runs_0_to_124_through_rings_of_four_packets_write_the_same(rt: HostRuntime) -> Result<(), Fail> {
    Ok(run_random(rt.alloc(), rt, 4, 0..125)?)
}

#[test]
fn runs_125_to_249_through_rings_of_four_packets_write_the_same(
    rt: HostRuntime,
) -> Result<(), Fail> {
    Ok(run_random(rt.alloc(), rt, 4, 125..250)?)
}

#[test]
fn runs_0_to_124_through_rings_of_all_packets_write_the_same(rt: HostRuntime) -> Result<(), Fail> {
    Ok(run_random(rt.alloc(), rt, 64, 0..125)?)
}

#[test]
fn runs_125_to_249_through_rings_of_all_packets_write_the_same(
    rt: HostRuntime,
) -> Result<(), Fail> {
    Ok(run_random(rt.alloc(), rt, 64, 125..250)?)
}
