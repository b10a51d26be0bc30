//! An input that a gate stops, so that it stays open and its run ends by its number of slots.

use crate::threaded_tests::gates::StopGate;
use crate::threaded_tests::inputs::Inputs;
use crate::threaded_tests::runs::run_gated;
use anyhow::Result;
use example::plan_of;
use reading::Stop;
use schedule::Schedule;
use std::test::Fail;

/// Slot 0 goes out once packet 1 of input 0 was taken, which is the last that its gate lets through.
#[test]
fn a_gate_stops_its_input_in_a_run(rt: HostRuntime) -> Result<(), Fail> {
    let alloc = rt.alloc();
    let schedule = Schedule::single(alloc, plan_of(alloc, 64, &[0, 0])?);
    let inputs = Inputs {
        count: 2,
        packets: 5,
    };
    let gates = vec![in alloc; StopGate::new(2), StopGate::new(u32::MAX)]?;
    let (bytes, summary, gates) = run_gated(alloc, rt, schedule, 1, inputs, gates)?;
    assert_eq!(rt; bytes.len(), 188);
    assert_eq!(rt; summary.inputs.len(), 2);
    assert_eq!(rt; summary.inputs[0].report.stopped, Some(Stop::Gate));
    assert_eq!(rt; summary.inputs[0].totals.taken, 2);
    assert_eq!(rt; gates.len(), 2);
    assert_eq!(rt; (gates[0].offered, gates[0].stops), (2, 1));
    Ok(())
}
