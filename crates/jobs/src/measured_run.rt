//! What became of a measured run.

use crate::digest::Digest;
use anyhow::{Result, ensure};
use printing::{is_overfull, print_delays, print_faults, print_summary};
use schedule::Schedule;
use serial::{InputSummary, Summary};
use std::io;
use std::io::Write;

/// What became of a run of this schedule, and the digest of its output.
#[derive(Drop)]
pub struct MeasuredRun {
    pub schedule: Schedule,
    pub summary: Summary,
    pub digest: Digest,
}

/// Whether an input was read to its end without a fault, and went out whole.
fn is_whole(input: &InputSummary) -> bool {
    let (report, totals) = (input.report, input.totals);
    let is_read = report.stopped.is_none() && report.malformed == 0 && report.bad == 0;
    let is_framed = report.losses == 0 && report.lost == 0;
    let is_sent = totals.sent == totals.taken && totals.queued == 0 && totals.sent > 0;
    is_read && is_framed && is_sent
}

/// Sees that a run multiplexed what it was to.
pub fn check(measured: &MeasuredRun) -> Result<()> {
    let summary = &measured.summary;
    ensure!(
        summary.inputs.iter().all(is_whole),
        "an input did not go out whole"
    );
    ensure!(summary.faults == 0, "the output has faults");
    ensure!(
        !is_overfull(&measured.schedule, summary),
        "the plan is overfull"
    );
    Ok(())
}

/// Prints what became of a run, and the digests of its output and of what it says of its streams.
pub fn print_measured<O: Write>(name: &str, measured: &MeasuredRun, out: &mut O) -> io::Result<()> {
    let mut streams = Digest::new();
    print_delays(&measured.schedule, &measured.summary, &mut streams)?;
    print_faults(&measured.schedule, &measured.summary, &mut streams)?;
    print_summary(&measured.summary, out)?;
    let (bytes, value) = (measured.digest.bytes(), measured.digest.value());
    let streams = streams.value();
    writeln!(
        out,
        "{name} bytes {bytes} digest {value:016x} streams {streams:016x}"
    )
}
