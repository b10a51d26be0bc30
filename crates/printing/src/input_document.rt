//! An input of a run, as a document has it.

use reading::Stop;
use serde::Serialize;
use serial::InputSummary;

/// An input of a run, as a document has it.
#[derive(Drop, Serialize)]
pub(crate) struct InputDocument<'a> {
    /// The name of its file.
    file: &'a str,
    framed: u64,
    malformed: u64,
    unmapped: u64,
    bad: u64,
    losses: u64,
    lost: u64,
    taken: u64,
    sent: u64,
    dropped: u64,
    queued: u64,
    /// Why it was read no further.
    end: &'static str,
}

/// Why an input was read no further, in a word.
fn end_of(stopped: Option<Stop>) -> &'static str {
    match stopped {
        None => "input",
        Some(Stop::Gate) => "slots",
        Some(_) => "failure",
    }
}

impl<'a> InputDocument<'a> {
    /// That of an input from the file with this name.
    pub fn of(file: &'a str, input: &InputSummary) -> InputDocument<'a> {
        let (report, totals) = (input.report, input.totals);
        InputDocument {
            file,
            framed: report.framed,
            malformed: report.malformed,
            unmapped: report.unmapped,
            bad: report.bad,
            losses: report.losses,
            lost: report.lost,
            taken: totals.taken,
            sent: totals.sent,
            dropped: totals.dropped,
            queued: totals.queued,
            end: end_of(report.stopped),
        }
    }
}
