//! The lines of the switches of a schedule: what each keeps, drops and begins, and when its tables come again.

use crate::run_lines::slots_of;
use plan::Plan;
use schedule::{Schedule, has_stream};
use serial::Summary;
use std::io;
use std::io::Write;

/// Ticks of 27 MHz in a millisecond.
const TICKS: u64 = 27_000;

/// Prints what becomes of each stream at a switch from one plan to the next: those that go on and those that end, by the first, and
/// then those that begin.
fn print_streams<O: Write>(before: &Plan, plan: &Plan, out: &mut O) -> io::Result<()> {
    for stream in before.streams() {
        let output_pid = stream.output_pid;
        let word = if has_stream(plan.request(), stream) {
            "keeps"
        } else {
            "drops"
        };
        writeln!(out, "{word} 0x{output_pid:04X}")?;
    }
    for stream in plan.streams() {
        if !has_stream(before.request(), stream) {
            let (output_pid, input) = (stream.output_pid, stream.input);
            let (pid, leak) = (stream.pid, stream.leak);
            writeln!(
                out,
                "begins 0x{output_pid:04X} input {input} pid 0x{pid:04X} leak {leak}"
            )?;
        }
    }
    Ok(())
}

/// Prints a line for each switch of a schedule, and behind it the services of the plan that comes into force, and what becomes of the
/// streams.
pub fn print_switches<O: Write>(schedule: &Schedule, out: &mut O) -> io::Result<()> {
    for number in 0..schedule.later_plans() {
        let (before, plan) = (schedule.plan(number), schedule.plan(number + 1));
        let slot = schedule.switch_slot(number).unwrap_or(0);
        let version = plan.request().version();
        writeln!(out, "switch {number} slot {slot} version {version}")?;
        for service in plan.services() {
            let (number, pmt) = (service.service, service.pmt);
            writeln!(out, "service {number} pmt 0x{pmt:04X}")?;
        }
        print_streams(before, plan, out)?;
    }
    Ok(())
}

/// Prints when each switch of a schedule comes, and in which slots its tables come again: the PAT in the slot of the switch, and the
/// last packet of the PMTs, and of SDT and NIT.
pub fn print_switch_tables<E: Write>(schedule: &Schedule, err: &mut E) -> io::Result<()> {
    for number in 0..schedule.later_plans() {
        let plan = schedule.plan(number + 1);
        let slot = schedule.switch_slot(number).unwrap_or(0);
        let time = schedule.switch_time(number).unwrap_or(0) / TICKS;
        let (fast, slow) = (plan.fast_len() as u64, plan.slow_len() as u64);
        let fast_end = fast.saturating_mul(plan.gap());
        let pmts = slot.saturating_add(fast.saturating_sub(1).saturating_mul(plan.gap()));
        let rounds = slow.saturating_sub(1).saturating_mul(plan.period());
        let rest = slot.saturating_add(rounds).saturating_add(fast_end);
        writeln!(
            err,
            "switch {number}: after {time} ms: PAT in slot {slot}, PMTs by slot {pmts}, SDT and NIT by slot {rest}"
        )?;
    }
    Ok(())
}

/// Prints which switches of a schedule a run didn't come to, since it had all its slots or its inputs ended before.
pub fn print_unreached<E: Write>(
    schedule: &Schedule,
    summary: &Summary,
    err: &mut E,
) -> io::Result<()> {
    let slots = slots_of(summary.counts);
    for number in 0..schedule.later_plans() {
        let slot = schedule.switch_slot(number).unwrap_or(0);
        if slot >= slots {
            writeln!(
                err,
                "switch {number}: slot {slot} didn't come: the run has {slots} slots"
            )?;
        }
    }
    Ok(())
}
