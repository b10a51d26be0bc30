//! Runs in threads that go over from one plan to the next, whose gates hold the inputs back by random numbers: each writes what the run
//! in one thread writes.

use crate::threaded_tests::inputs::Inputs;
use crate::threaded_tests::runs::{run_gated, written_in_one};
use crate::threaded_tests::turn_gates::{RandomGate, TurnsGate};
use anyhow::{Error, Result};
use example::{planned, service, settings_with_rings, switched, tables};
use mux::Totals;
use plan::Plan;
use schedule::Schedule;
use serial::Summary;
use std::alloc::Global;
use std::process::Abort;
use std::sync::Wait;
use std::test::Fail;
use std::thread::Threads;
use std::time::Clock;

/// The text of two inputs of a plan.
const TWO_INPUTS: &str = "[[input]]
file = \"x.ts\"
rate = 1504000
offset = 0
[[input]]
file = \"x.ts\"
rate = 1504000
offset = 0
";

/// The plan of two inputs with this version, through queues and rings of so many packets, where the service with this number is that of
/// the second input: its stream has the output PID 0x0200 + number.
fn plan_with(alloc: Global, room: usize, version: u64, number: usize) -> Result<Plan> {
    let settings = settings_with_rings(alloc, room, room)?;
    let mut text = settings.replace(
        alloc,
        "version = 0",
        &format!(in alloc; "version = {version}")?,
    )?;
    text.push_str(TWO_INPUTS)?;
    text.push_str(&service(alloc, 0, 0, 100, 0x0101)?)?;
    text.push_str(&service(alloc, number, 1, 100, 0x0101)?)?;
    planned(alloc, &text, &tables(alloc)?)
}

/// At slot 100 the stream of the second input goes over to another PID, while that of the first goes on.
fn schedule_of(alloc: Global, room: usize) -> Result<Schedule> {
    let later = vec![in alloc; (100, plan_with(alloc, room, 1, 2)?)]?;
    Schedule::build(alloc, plan_with(alloc, room, 0, 1)?, later).map_err(Error::from)
}

/// So many gates of a run.
fn gates_of(alloc: Global, run: u64, inputs: Inputs) -> Result<Vec<RandomGate>> {
    let mut gates = Vec::new(alloc);
    for input in 0..inputs.count {
        gates.push(RandomGate::new(run, input))?;
    }
    Ok(gates)
}

/// Eight runs by a schedule, of at most this many slots, write what the run in one thread writes: that, and what became of the last.
fn run_all<T: Threads + Wait + Clock + Abort + Copy + Send + Drop + 'static>(
    alloc: Global,
    rt: T,
    schedule: &Schedule,
    slots: u16,
    inputs: Inputs,
) -> Result<(Vec<u8>, Option<Summary>)> {
    let slots = u64::from(slots);
    let written = written_in_one(alloc, schedule, slots, inputs)?;
    let mut became = None;
    for run in 0..8 {
        let gates = gates_of(alloc, run, inputs)?;
        let (bytes, summary, _) = run_gated(
            alloc,
            rt,
            schedule.copy(alloc)?,
            slots,
            inputs,
            gates,
        )?;
        assert!(rt; bytes.as_slice() == written.as_slice(), "run {run}");
        became = Some(summary);
    }
    Ok((written, became))
}

/// How many packets of these bytes have a PID.
fn count_on(pid: u16, bytes: &[u8]) -> u64 {
    let [high, low] = pid.to_be_bytes();
    let mut count: u64 = 0;
    for packet in bytes.chunks(188) {
        if let [_, second, third, ..] = packet
            && second % 32 == high
            && *third == low
        {
            count = count.saturating_add(1);
        }
    }
    count
}

/// The numbers are those of the run in one thread, worked out on paper in `run_vectors`.
#[test]
fn runs_go_over_to_the_next_plan(rt: HostRuntime) -> Result<(), Fail> {
    let alloc = rt.alloc();
    let inputs = Inputs {
        count: 1,
        packets: 103,
    };
    let (bytes, became) = run_all(alloc, rt, &switched(alloc)?, 1_000, inputs)?;
    assert_eq!(rt; bytes.len(), 19_928);
    let totals = Totals {
        taken: 103,
        sent: 100,
        dropped: 3,
        queued: 0,
    };
    let became = became.ok_or("a run")?;
    assert_eq!(rt; became.inputs.len(), 1);
    assert_eq!(rt; became.inputs[0].totals, totals);
    Ok(())
}

/// Both inputs have a packet for each slot, so their rings and queues are full when the switch comes.
fn run_overfull<T: Threads + Wait + Clock + Abort + Copy + Send + Drop + 'static>(
    alloc: Global,
    rt: T,
    room: usize,
) -> Result<()> {
    let inputs = Inputs {
        count: 2,
        packets: 110,
    };
    let (bytes, _) = run_all(alloc, rt, &schedule_of(alloc, room)?, 1_000, inputs)?;
    assert!(rt; count_on(0x0201, &bytes) > 0);
    assert!(rt; count_on(0x0202, &bytes) > 0);
    assert_eq!(rt; count_on(0x0200, &bytes), 110);
    Ok(())
}

#[test]
fn runs_switch_while_rings_of_one_packet_are_full(rt: HostRuntime) -> Result<(), Fail> {
    Ok(run_overfull(rt.alloc(), rt, 1)?)
}

#[test]
fn runs_switch_while_rings_of_four_packets_are_full(rt: HostRuntime) -> Result<(), Fail> {
    Ok(run_overfull(rt.alloc(), rt, 4)?)
}

/// How often a gate lets other threads go first at each of its points.
const TURNS: [u32; 3] = [0, 1, 7];

/// Each pair of gates, which let other threads go first 0, 1 or 7 times, writes what the run in one thread writes.
#[test]
fn runs_switch_whatever_the_turns(rt: HostRuntime) -> Result<(), Fail> {
    let alloc = rt.alloc();
    let inputs = Inputs {
        count: 2,
        packets: 110,
    };
    let schedule = schedule_of(alloc, 4)?;
    let written = written_in_one(alloc, &schedule, 1_000, inputs)?;
    assert!(rt; count_on(0x0202, &written) > 0);
    for first in TURNS {
        for second in TURNS {
            let gates = vec![in alloc; TurnsGate { turns: first }, TurnsGate { turns: second }]?;
            let (bytes, _, _) = run_gated(alloc, rt, schedule.copy(alloc)?, 1_000, inputs, gates)?;
            assert!(rt;
                bytes.as_slice() == written.as_slice(),
                "{first} and {second} turns"
            );
        }
    }
    Ok(())
}

/// A run that has all its slots at the switch doesn't switch, and one of a slot more sends the PAT of the next plan in it.
#[test]
fn runs_end_at_a_switch(rt: HostRuntime) -> Result<(), Fail> {
    let alloc = rt.alloc();
    let inputs = Inputs {
        count: 2,
        packets: 110,
    };
    let schedule = schedule_of(alloc, 64)?;
    let (bytes, _) = run_all(alloc, rt, &schedule, 100, inputs)?;
    assert_eq!(rt; (bytes.len(), count_on(0x0000, &bytes)), (18_800, 1));
    let (bytes, _) = run_all(alloc, rt, &schedule, 101, inputs)?;
    assert_eq!(rt; (bytes.len(), count_on(0x0000, &bytes)), (18_988, 2));
    Ok(())
}

/// Where all inputs have ended and nothing waits the run is done, and no switch comes.
#[test]
fn runs_are_done_before_a_switch(rt: HostRuntime) -> Result<(), Fail> {
    let alloc = rt.alloc();
    let inputs = Inputs {
        count: 2,
        packets: 5,
    };
    let (bytes, _) = run_all(alloc, rt, &schedule_of(alloc, 64)?, 1_000, inputs)?;
    assert_eq!(rt; bytes.len(), 2_632);
    Ok(())
}
