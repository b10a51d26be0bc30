//! The faults of a stream, as a person wants to hear of them.

use crate::fault_counts::FaultCounts;
use crate::{Fault, FaultKind};
use std::marker::Model;

/// How many faults are kept as they were told, at most.
pub const MOST_FIRST: usize = 10;

/// What lies in a place where no fault was put yet.
const UNTOLD: Fault = Fault {
    slot: 0,
    kind: FaultKind::TsSyncLoss,
    pid: None,
};

/// The faults that were told so far: the first ten, and how many there are of each kind.
#[derive(Drop)]
pub struct FaultReport {
    places: [Fault; MOST_FIRST],
    kept: usize,
    counts: FaultCounts,
}

impl Model for FaultReport {
    ghost use Rattle.std.specs.Prelude.{◌≤◌, take};
    ghost use Rattle.analyse.specs.ReportValue.{ReportValue};

    ghost Value = { ReportValue };

    ghost view = { λ r. record { first = take r.kept r.places; counts = r.counts } };

    ghost invariant = { λ r. r.kept ≤ 10 };
}

impl FaultReport {
    ghost use Rattle.std.specs.Prelude.{◌≡◌, ◌++◌, ◌∷◌, [], List};
    ghost use Rattle.analyse.specs.declared.fault.Fault.{Fault as ToldFault};
    ghost use Rattle.analyse.specs.FaultReport.{IsReportOf};

    /// Of no faults. It asks for no memory, and neither does `add`.
    pub fn new() -> FaultReport
        ensures { IsReportOf result [] }
    {
        FaultReport {
            places: [UNTOLD; MOST_FIRST],
            kept: 0,
            counts: FaultCounts::new(),
        }
    }

    /// One more fault, which is told behind the others.
    pub fn add(&mut self, fault: Fault)
        ensures { (told : List ToldFault) → IsReportOf self.old told → IsReportOf self.new (told ++ fault ∷ []) }
    {
        if self.kept < MOST_FIRST {
            self.places[self.kept] = fault;
            self.kept += 1;
        }
        self.counts.add(fault.kind);
    }

    /// Some more faults, in their order.
    pub fn add_all(&mut self, faults: &[Fault])
        ensures { (told : List ToldFault) → IsReportOf self.old told → IsReportOf self.new (told ++ faults.now) }
    {
        for fault in faults {
            self.add(*fault);
        }
    }

    /// The first faults that were told, in their order: ten, or all where there are fewer.
    pub fn first(&self) -> &[Fault]
        ensures { result.now ≡ self.now.first }
    {
        &self.places[..self.kept]
    }

    /// How many there are of each kind.
    pub fn counts(&self) -> FaultCounts
        ensures { result ≡ self.now.counts }
    {
        self.counts
    }
}
