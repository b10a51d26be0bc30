//! The lines of a run: its inputs, its output, and how long its streams waited.

ghost use Rattle.std.specs.Prelude.{◌≤◌};

use mux::Counts;
use schedule::Schedule;
use serial::{InputSummary, Summary};
use std::io;
use std::io::Write;

/// Prints what became of an input.
fn print_input<O: Write>(number: usize, input: &InputSummary, out: &mut O) -> io::Result<()> {
    let report = input.report;
    let (framed, malformed, unmapped) = (report.framed, report.malformed, report.unmapped);
    let (bad, losses, lost) = (report.bad, report.losses, report.lost);
    write!(
        out,
        "input {number} framed {framed} malformed {malformed} unmapped {unmapped} "
    )?;
    write!(out, "bad {bad} losses {losses} lost {lost} ")?;
    let totals = input.totals;
    let (taken, sent, dropped, queued) = (totals.taken, totals.sent, totals.dropped, totals.queued);
    writeln!(
        out,
        "taken {taken} sent {sent} dropped {dropped} queued {queued}"
    )
}

/// How many slots there were.
pub(crate) fn slots_of(counts: Counts) -> u64
    ensures { counts.elementary ≤ result }
{
    let Counts {
        tables,
        elementary,
        null,
    } = counts;
    elementary.saturating_add(tables.saturating_add(null))
}

/// Prints what became of a run: a line for each input, and one for the output.
pub fn print_summary<O: Write>(summary: &Summary, out: &mut O) -> io::Result<()> {
    for (number, input) in summary.inputs.iter().enumerate() {
        print_input(number, input, out)?;
    }
    let Counts {
        tables,
        elementary,
        null,
    } = summary.counts;
    let slots = slots_of(summary.counts);
    let faults = summary.faults;
    write!(
        out,
        "slots {slots} tables {tables} elementary {elementary} null {null} "
    )?;
    writeln!(out, "faults {faults}")
}

/// Prints how long the streams of a run waited, those of all its plans: a line each with the largest delay of its packets, in ticks of
/// 27 MHz, and the most packets that waited in its queue.
pub fn print_delays<E: Write>(
    schedule: &Schedule,
    summary: &Summary,
    err: &mut E,
) -> io::Result<()> {
    for (stream, peak) in schedule.streams().iter().zip(summary.streams.iter()) {
        let (output_pid, input, pid) = (stream.output_pid, stream.input, stream.pid);
        let (delay, queued) = (peak.delay, peak.queued);
        writeln!(
            err,
            "stream 0x{output_pid:04X} input {input} pid 0x{pid:04X} delay {delay} queue {queued}"
        )?;
    }
    Ok(())
}
