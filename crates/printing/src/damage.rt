//! What is wrong with the packets of a run's inputs, in lines.

use reading::Report;
use serial::Summary;
use std::io;
use std::io::Write;

/// Whether an input has packets that are none, or lost its sync.
fn is_damaged(report: &Report) -> bool {
    report.malformed > 0 || report.bad > 0 || report.losses > 0
}

/// Whether an input of a run is damaged.
pub fn has_damage(summary: &Summary) -> bool {
    summary.inputs.iter().any(|input| is_damaged(&input.report))
}

/// Prints a line for each input of a run that is damaged: how many of its packets are malformed, how many have a bad sync byte, how often sync
/// was lost, and how many bytes are in no packet.
pub fn print_damage<E: Write>(summary: &Summary, err: &mut E) -> io::Result<()> {
    for (number, input) in summary.inputs.iter().enumerate() {
        let report = &input.report;
        if is_damaged(report) {
            let (malformed, bad) = (report.malformed, report.bad);
            let (losses, lost) = (report.losses, report.lost);
            writeln!(
                err,
                "damaged: input {number} has malformed packets: {malformed}, bad sync bytes: {bad}, losses of sync: {losses}, bytes in no packet: {lost}"
            )?;
        }
    }
    Ok(())
}
