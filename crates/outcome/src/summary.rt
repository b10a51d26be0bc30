//! What became of a run.

use analyse::FaultReport;
use mux::{Counts, Peak, Totals};
use reading::Report;

/// What became of one input of a run.
#[derive(Clone, Copy, Debug, PartialEq, Eq)]
pub struct InputSummary {
    /// What was found in it.
    pub report: Report,
    /// What became of its packets that the plans name.
    pub totals: Totals,
}

/// What became of a run.
#[derive(Drop)]
pub struct Summary {
    /// The inputs, in the order of the plans.
    pub inputs: Vec<InputSummary>,
    /// The largest delay and the fullest queue of each stream of the schedule, in its order.
    pub streams: Vec<Peak>,
    /// What the slots carried.
    pub counts: Counts,
    /// How many faults the analyser told of the output.
    pub faults: u64,
    /// The first of these faults, and how many there are of each kind.
    pub fault_report: FaultReport,
}
