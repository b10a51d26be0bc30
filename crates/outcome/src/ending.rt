//! What is said of a run at its end.

ghost use Rattle.std.specs.Prelude.{◌≡◌, length, true, false, None, Some, IsSome, IfOk};
ghost use Rattle.schedule.specs.Streams.{all_streams};
ghost use Rattle.outcome.specs.Ending.{AreReported, ArePeaks, IsTold};

use crate::ended::Ended;
use crate::summary::{InputSummary, Summary};
use mux::{Mux, Peak};
use outlet::SlotWriter;
use reading::{Report, Stop};
use std::alloc::{AllocError, Global};

/// What is told of an input at the end of a run: its report. An input that wasn't closed and that nothing stopped is left by the run.
fn last_report(report: Report, is_closed: bool) -> Report
    ensures left { is_closed ≡ false → report.stopped ≡ None → result ≡ record report { stopped = Some Stop.Gate } }
    ensures closed { is_closed ≡ true → result ≡ report }
    ensures stopped { IsSome report.stopped → result ≡ report }
{
    if is_closed || report.stopped.is_some() {
        return report;
    }
    Report {
        stopped: Some(Stop::Gate),
        ..report
    }
}

/// What became of each input, and what was lent to read it.
fn end_inputs<T: Drop>(
    alloc: Global,
    mux: &Mux,
    ended: Vec<Ended<T>>,
) -> Result<(Vec<InputSummary>, Vec<T>), AllocError>
    requires { length ended.items ≡ length mux.now.run.schedule.first.request.inputs }
    ensures { IfOk result (λ done. AreReported mux.now.run.schedule mux.now.events ended.items done.0.items done.1.items) }
{
    let mut summaries = Vec::new(alloc);
    let mut lent = Vec::new(alloc);
    for input in ended {
        let Ended {
            report,
            is_closed,
            lent: back,
        } = input;
        let number = summaries.len();
        let report = last_report(report, is_closed);
        summaries.push(InputSummary {
            report,
            totals: mux.totals(number),
        })?;
        lent.push(back)?;
    }
    Ok((summaries, lent))
}

/// The largest delay and the fullest queue of each of so many streams, which are those of the schedule.
fn end_streams(alloc: Global, mux: &Mux, streams: usize) -> Result<Vec<Peak>, AllocError>
    requires { streams ≡ length (all_streams mux.now.run.schedule) }
    ensures { IfOk result (λ peaks. ArePeaks mux.now.run.schedule mux.now.events peaks.items) }
{
    let mut peaks = Vec::new(alloc);
    for stream in 0..streams {
        peaks.push(mux.peak(stream))?;
    }
    Ok(peaks)
}

/// What became of a run with this multiplex, which left this of its inputs, in their order, and whose packets went out by `output`; and
/// what was lent. An input that wasn't closed and that nothing stopped is left. `Err` is want of memory.
pub fn end_run<T: Drop>(
    alloc: Global,
    mux: &Mux,
    ended: Vec<Ended<T>>,
    output: SlotWriter,
) -> Result<(Summary, Vec<T>), AllocError>
    requires { length ended.items ≡ length mux.now.run.schedule.first.request.inputs }
    ensures { IfOk result (λ done. IsTold mux.now.run.schedule mux.now.events ended.items output done.0 done.1.items) }
{
    let streams = end_streams(alloc, mux, mux.schedule().streams().len())?;
    let (inputs, lent) = end_inputs(alloc, mux, ended)?;
    let summary = Summary {
        inputs,
        streams,
        counts: mux.counts(),
        faults: output.faults(),
        fault_report: output.into_report(),
    };
    Ok((summary, lent))
}
