//! What became of a run, as a document.

use crate::early_ends::SLOT;
use crate::fault_document::FaultDocument;
use crate::input_document::InputDocument;
use crate::kind_document::KindDocument;
use crate::run_lines::slots_of;
use crate::wait_document::WaitDocument;
use documents::{FORMAT, print_document};
use files::CommandFault;
use schedule::Schedule;
use serde::Serialize;
use serial::Summary;
use std::alloc::{AllocError, Global};
use std::io::Write;

/// What became of a run, as a document: of its inputs, of its output, and of its streams.
#[derive(Drop, Serialize)]
struct RunDocument<'a> {
    format: u64,
    command: &'static str,
    inputs: Vec<InputDocument<'a>>,
    slots: u64,
    tables: u64,
    elementary: u64,
    null: u64,
    faults: u64,
    kinds: Vec<KindDocument>,
    /// The first ten faults.
    first: Vec<FaultDocument>,
    streams: Vec<WaitDocument>,
}

/// The first faults of the output of a run. `Err` is want of memory.
fn first_faults(
    alloc: Global,
    schedule: &Schedule,
    summary: &Summary,
) -> Result<Vec<FaultDocument>, AllocError> {
    let rate = schedule.plan(0).rate();
    let mut first = Vec::new(alloc);
    for fault in summary.fault_report.first() {
        let byte = fault.slot.saturating_mul(SLOT);
        first.push(FaultDocument::of(fault, byte, rate))?;
    }
    Ok(first)
}

/// The document of a run. `Err` is want of memory.
fn document_of<'a>(
    alloc: Global,
    schedule: &'a Schedule,
    summary: &Summary,
) -> Result<RunDocument<'a>, AllocError> {
    let mut inputs = Vec::new(alloc);
    let stated = schedule.plan(0).inputs().iter();
    for (input, ran) in stated.zip(summary.inputs.iter()) {
        inputs.push(InputDocument::of(input.file.as_str(), ran))?;
    }
    Ok(RunDocument {
        format: FORMAT,
        command: "run",
        inputs,
        slots: slots_of(summary.counts),
        tables: summary.counts.tables,
        elementary: summary.counts.elementary,
        null: summary.counts.null,
        faults: summary.faults,
        kinds: KindDocument::all_of(alloc, &summary.fault_report.counts())?,
        first: first_faults(alloc, schedule, summary)?,
        streams: WaitDocument::all_of(alloc, schedule, summary)?,
    })
}

/// Prints what became of a run as JSON: what `print_summary` and `print_delays` say of it, and the faults of its output that
/// `print_faults` tells.
pub fn print_run_document<O: Write>(
    alloc: Global,
    schedule: &Schedule,
    summary: &Summary,
    out: &mut O,
) -> Result<(), CommandFault> {
    print_document(alloc, &document_of(alloc, schedule, summary)?, out)
}
