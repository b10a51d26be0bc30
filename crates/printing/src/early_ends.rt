//! The inputs of a run that ended before others, in lines.

use crate::run_end::bytes_read;
use crate::run_lines::slots_of;
use advice::{is_early, reached};
use plan::Plan;
use schedule::Schedule;
use serial::Summary;
use std::io;
use std::io::Write;

/// The bytes of a slot.
pub(crate) const SLOT: u64 = 188;

/// How far the input with this number was read, in milliseconds of the multiplex.
pub(crate) fn reached_in(plan: &Plan, summary: &Summary, number: usize) -> u64 {
    match (plan.inputs().get(number), summary.inputs.get(number)) {
        (Some(input), Some(ran)) => {
            let bytes = bytes_read(input.size, &ran.report);
            reached(input.offset, input.rate, bytes)
        }
        _ => 0,
    }
}

/// How long a run went on with inputs, in milliseconds: as far as the one that was read furthest, but not behind its last slot.
fn last_of(plan: &Plan, summary: &Summary) -> u64 {
    let mut last = 0;
    for number in 0..plan.inputs().len() {
        last = reached_in(plan, summary, number).max(last);
    }
    let slots = slots_of(summary.counts);
    last.min(reached(0, plan.rate(), slots.saturating_mul(SLOT)))
}

/// Whether a stream of a run comes from the input with this number.
fn is_used(schedule: &Schedule, number: usize) -> bool {
    schedule
        .streams()
        .iter()
        .any(|stream| stream.input == number)
}

/// When the input with this number ended, in milliseconds, where streams of the run come from it, and the run went on with
/// others until `last`, more than a second.
fn early_end(schedule: &Schedule, summary: &Summary, number: usize, last: u64) -> Option<u64> {
    let ran = summary.inputs.get(number)?;
    let end = reached_in(schedule.plan(0), summary, number);
    if ran.report.stopped.is_none() && is_used(schedule, number) && is_early(end, last) {
        Some(end)
    } else {
        None
    }
}

/// Whether an input of a run with streams of its plans ended more than a second before others.
pub fn has_early_end(schedule: &Schedule, summary: &Summary) -> bool {
    let plan = schedule.plan(0);
    let last = last_of(plan, summary);
    for number in 0..plan.inputs().len() {
        if early_end(schedule, summary, number, last).is_some() {
            return true;
        }
    }
    false
}

/// Prints the inputs of a run that have streams of its plans and ended more than a second before others: when each ended, and how long
/// the run went on.
pub fn print_early_ends<E: Write>(
    schedule: &Schedule,
    summary: &Summary,
    err: &mut E,
) -> io::Result<()> {
    let plan = schedule.plan(0);
    let last = last_of(plan, summary);
    for number in 0..plan.inputs().len() {
        if let Some(end) = early_end(schedule, summary, number, last) {
            let more = last.saturating_sub(end);
            writeln!(
                err,
                "end: input {number} ended after {end} ms, and the run went on for {more} ms"
            )?;
        }
    }
    Ok(())
}
