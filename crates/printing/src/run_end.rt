//! Why a run ended, in lines.

use crate::run_lines::slots_of;
use files::InputFile;
use plan::Plan;
use reading::{Report, Stop};
use serial::Summary;
use std::io;
use std::io::Write;
use tspkt::PacketSize;

/// How many bytes of an input of this size were framed.
pub(crate) fn bytes_read(size: PacketSize, report: &Report) -> u64 {
    let packets = report.framed.saturating_add(report.bad);
    let bytes = packets.saturating_mul(size.stride() as u64);
    bytes.saturating_add(report.lost)
}

/// How much of an input of this size and this length was read, in per cent; none where all of it was.
fn percent_read(size: PacketSize, report: &Report, length: u64) -> Option<u64> {
    let read = bytes_read(size, report);
    if read >= length {
        return None;
    }
    read.saturating_mul(100).checked_div(length)
}

/// Prints why an input was read no further before its end, and answers whether it was.
fn print_left<R: InputFile, E: Write>(
    number: usize,
    size: PacketSize,
    report: &Report,
    reader: &R,
    err: &mut E,
) -> io::Result<bool> {
    match (report.stopped, reader.length()) {
        (None, _) => return Ok(false),
        (Some(Stop::Gate), Some(length)) => {
            write!(err, "end: the slot limit: input {number} was read to ")?;
            match percent_read(size, report, length) {
                Some(percent) => writeln!(err, "{percent} %")?,
                None => writeln!(err, "its end")?,
            }
        }
        (Some(Stop::Gate), None) => {
            writeln!(
                err,
                "end: the slot limit: input {number} was not read to its end"
            )?;
        }
        (Some(_), _) => writeln!(err, "end: input {number} failed")?,
    }
    Ok(true)
}

/// Prints that all inputs of a run were read to their ends. Where some of their packets still wait, the run had all its slots
/// first.
fn print_all<E: Write>(summary: &Summary, err: &mut E) -> io::Result<()> {
    if summary.inputs.iter().any(|input| input.totals.queued > 0) {
        writeln!(
            err,
            "end: the slot limit: all inputs were read to their ends"
        )
    } else {
        writeln!(err, "end: all inputs ended")
    }
}

/// The slots of a run that isn't asked for another length, which are the most that `--slots` may have.
const MOST_SLOTS: u64 = 1_000_000;

/// Whether a run had all its slots before the packets of its inputs went out.
fn is_cut(summary: &Summary) -> bool {
    summary.inputs.iter().any(|input| input.report.stopped == Some(Stop::Gate)
        || input.totals.queued > 0)
}

/// Prints how a run goes on that was cut at the most slots that `--slots` may have.
fn print_longer<E: Write>(summary: &Summary, err: &mut E) -> io::Result<()> {
    if slots_of(summary.counts) == MOST_SLOTS && is_cut(summary) {
        writeln!(err, "end: with --all a run goes on until its inputs end")?;
    }
    Ok(())
}

/// Prints why a run of a plan ended: a line for each input that wasn't read to its end, or one that says that all were, and how a run goes
/// on that was cut at 1,000,000 slots.
pub fn print_end<R: InputFile, E: Write>(
    plan: &Plan,
    summary: &Summary,
    readers: &Vec<R>,
    err: &mut E,
) -> io::Result<()> {
    let mut is_all = true;
    let ends = summary.inputs.iter().zip(readers.iter());
    for (number, (input, (end, reader))) in plan.inputs().iter().zip(ends).enumerate() {
        if print_left(number, input.size, &end.report, reader, err)? {
            is_all = false;
        }
    }
    if is_all {
        print_all(summary, err)?;
    }
    print_longer(summary, err)
}
