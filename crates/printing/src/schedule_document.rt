//! A schedule, as a document.

use crate::measured_document::MeasuredDocument;
use crate::service_document::ServiceDocument;
use crate::stream_document::StreamDocument;
use crate::switch_document::SwitchDocument;
use advice::{left_rate, pat_interval, sdt_interval};
use documents::{FORMAT, print_document};
use files::CommandFault;
use rate_meter::Measured;
use schedule::Schedule;
use serde::Serialize;
use std::alloc::{AllocError, Global};
use std::io::Write;

/// A schedule, as a document: what its first plan makes, and its switches.
#[derive(Drop, Serialize)]
struct ScheduleDocument<'a> {
    format: u64,
    command: &'static str,
    /// In bits a second.
    rate: u64,
    /// In slots, as the one behind it.
    gap: u64,
    period: u64,
    /// How many packets the tables of a round have.
    fast: usize,
    slow: usize,
    /// How often the PAT comes, in milliseconds, and how often the SDT.
    pat_ms: u64,
    sdt_ms: u64,
    /// What the rate leaves after the tables, in bits a second.
    left: u64,
    /// What the services take of it by their measured rates, where all are known.
    taken: Option<u64>,
    inputs: Vec<MeasuredDocument<'a>>,
    services: Vec<ServiceDocument>,
    streams: Vec<StreamDocument>,
    switches: Vec<SwitchDocument>,
}

/// The document of a schedule whose inputs have these measured rates, and whose first plan's services take so much. `Err` is want of memory.
fn document_of<'a>(
    alloc: Global,
    schedule: &'a Schedule,
    measured: &[Option<Measured>],
    taken: Option<u64>,
) -> Result<ScheduleDocument<'a>, AllocError> {
    let plan = schedule.plan(0);
    let rounds = plan.rounds();
    let mut streams = Vec::new(alloc);
    for stream in plan.streams() {
        streams.push(StreamDocument::of(stream))?;
    }
    Ok(ScheduleDocument {
        format: FORMAT,
        command: "check",
        rate: plan.rate(),
        gap: plan.gap(),
        period: plan.period(),
        fast: plan.fast_len(),
        slow: plan.slow_len(),
        pat_ms: pat_interval(rounds),
        sdt_ms: sdt_interval(rounds),
        left: left_rate(rounds),
        taken,
        inputs: MeasuredDocument::all_of(alloc, plan, measured)?,
        services: ServiceDocument::all_of(alloc, plan)?,
        streams,
        switches: SwitchDocument::all_of(alloc, schedule)?,
    })
}

/// Prints what a schedule makes as JSON: what `print_plan` says of its first plan, and `print_switches` of it; the measured rates of its
/// inputs, in their order, where they are known; and how much of the first plan's rate its services take by these, in bits a second.
pub fn print_schedule_document<O: Write>(
    alloc: Global,
    schedule: &Schedule,
    measured: &[Option<Measured>],
    taken: Option<u64>,
    out: &mut O,
) -> Result<(), CommandFault> {
    print_document(alloc, &document_of(alloc, schedule, measured, taken)?, out)
}
