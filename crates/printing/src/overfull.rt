//! Whether a plan of a run is overfull, in lines.

use crate::run_lines::slots_of;
use advice::{is_filled, late_by, left_rate, taken_rate};
use schedule::Schedule;
use serial::Summary;
use std::io;
use std::io::Write;

/// Whether a stream of a run waited more than a second, or filled its queue.
pub fn is_overfull(schedule: &Schedule, summary: &Summary) -> bool {
    let capacity = schedule.plan(0).request().queue();
    for peak in &summary.streams {
        if late_by(peak.delay).is_some() || is_filled(peak.queued, capacity) {
            return true;
        }
    }
    false
}

/// Prints the streams of a run that waited more than a second or filled their queues.
fn print_streams<E: Write>(schedule: &Schedule, summary: &Summary, err: &mut E) -> io::Result<()> {
    let capacity = schedule.plan(0).request().queue();
    for (stream, peak) in schedule.streams().iter().zip(summary.streams.iter()) {
        let (output_pid, input, pid) = (stream.output_pid, stream.input, stream.pid);
        if let Some(delay) = late_by(peak.delay) {
            writeln!(
                err,
                "overfull: stream 0x{output_pid:04X} (input {input}, PID 0x{pid:04X}): a packet waited {delay} ms"
            )?;
        }
        if is_filled(peak.queued, capacity) {
            writeln!(
                err,
                "overfull: stream 0x{output_pid:04X} (input {input}, PID 0x{pid:04X}): its queue was full, with {capacity} packets"
            )?;
        }
    }
    Ok(())
}

/// The least that the rate of a run leaves for streams in one of its plans, in bits a second.
fn least_left(schedule: &Schedule) -> u64 {
    let mut least = left_rate(schedule.plan(0).rounds());
    for number in 0..schedule.later_plans() {
        least = left_rate(schedule.plan(number + 1).rounds()).min(least);
    }
    least
}

/// Prints what the streams of a run took, and what its rate leaves them.
fn print_rates<E: Write>(schedule: &Schedule, summary: &Summary, err: &mut E) -> io::Result<()> {
    let (elementary, slots) = (summary.counts.elementary, slots_of(summary.counts));
    let rounds = schedule.plan(0).rounds();
    let (taken, left) = (taken_rate(rounds, elementary, slots), least_left(schedule));
    let rate = schedule.plan(0).rate();
    writeln!(
        err,
        "overfull: the services took {taken} bits a second; rate {rate} leaves {left} after the tables"
    )
}

/// Whether a stream of a run waited more than a second.
fn is_late(summary: &Summary) -> bool {
    summary
        .streams
        .iter()
        .any(|peak| late_by(peak.delay).is_some())
}

/// Prints the streams by which the plan of a run is overfull, and then its rates; nothing where it isn't. Where a queue was full, and no
/// packet waited long, the queues may be too short for how packets come.
pub fn print_overfull<E: Write>(
    schedule: &Schedule,
    summary: &Summary,
    err: &mut E,
) -> io::Result<()> {
    if !is_overfull(schedule, summary) {
        return Ok(());
    }
    print_streams(schedule, summary, err)?;
    print_rates(schedule, summary, err)?;
    if is_late(summary) {
        return Ok(());
    }
    writeln!(
        err,
        "overfull: no packet waited a second: `queue` may be too small, raise it"
    )
}
