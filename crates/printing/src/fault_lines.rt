//! The faults of the output of a run, in lines.

use crate::early_ends::{SLOT, reached_in};
use advice::reached;
use analyse::{Fault, FaultKind};
use reading::Stop;
use schedule::Schedule;
use serial::Summary;
use std::io;
use std::io::Write;

/// The kinds of faults, by their numbers.
pub(crate) const KINDS: [FaultKind; 6] = [
    FaultKind::TsSyncLoss,
    FaultKind::SyncByteError,
    FaultKind::PatError2,
    FaultKind::ContinuityCountError,
    FaultKind::PmtError2,
    FaultKind::PidError,
];

/// The input of the stream that a fault says is missing from the output of a run, where that input had ended before.
fn ended_before(schedule: &Schedule, summary: &Summary, fault: &Fault) -> Option<usize> {
    if fault.kind != FaultKind::PidError {
        return None;
    }
    let missing = fault.pid?;
    let stream = schedule
        .streams()
        .iter()
        .find(|stream| stream.output_pid == missing)?;
    let ran = summary.inputs.get(stream.input)?;
    let plan = schedule.plan(0);
    let time = reached(0, plan.rate(), fault.slot.saturating_mul(SLOT));
    let is_left = ran.report.stopped == Some(Stop::Gate);
    if is_left || reached_in(plan, summary, stream.input) > time {
        return None;
    }
    Some(stream.input)
}

/// Prints a fault of the output of a run, and which input had ended, where that is why a stream is missing.
fn print_fault<E: Write>(
    schedule: &Schedule,
    summary: &Summary,
    fault: &Fault,
    err: &mut E,
) -> io::Result<()> {
    match ended_before(schedule, summary, fault) {
        Some(input) => writeln!(err, "faults: {fault}: input {input} had ended"),
        None => writeln!(err, "faults: {fault}"),
    }
}

/// Prints the faults that were told of the output of a run, where there are some: how many there are of each kind, and the first
/// ten. Of a stream that is missing since its input ended it names the input.
pub fn print_faults<E: Write>(
    schedule: &Schedule,
    summary: &Summary,
    err: &mut E,
) -> io::Result<()> {
    let counts = summary.fault_report.counts();
    for kind in KINDS {
        let count = counts.of(kind);
        if count > 0 {
            let name = kind.name();
            writeln!(err, "faults: {count} of {kind} {name}")?;
        }
    }
    for fault in summary.fault_report.first() {
        print_fault(schedule, summary, fault, err)?;
    }
    Ok(())
}
