//! How many faults there are of each kind.

ghost use Rattle.std.specs.Prelude.{◌≡◌, ◌++◌, ◌∷◌, [], List, min};
ghost use Rattle.analyse.specs.declared.fault.Fault.{Fault as ToldFault};
ghost use Rattle.analyse.specs.FaultCounts.{AreCountsOf, count_in};

use crate::FaultKind;

/// How many faults there are of each kind of the first priority of ETSI TR 101 290 (5.2.1), each up to the largest number of
/// 64 bits.
#[derive(Clone, Copy, Debug, PartialEq, Eq)]
pub struct FaultCounts {
    ts_sync_loss: u64,
    sync_byte_error: u64,
    pat_error_2: u64,
    continuity_count_error: u64,
    pmt_error_2: u64,
    pid_error: u64,
}

impl FaultCounts {
    /// Of no faults.
    pub fn new() -> FaultCounts
        ensures { AreCountsOf result [] }
    {
        FaultCounts {
            ts_sync_loss: 0,
            sync_byte_error: 0,
            pat_error_2: 0,
            continuity_count_error: 0,
            pmt_error_2: 0,
            pid_error: 0,
        }
    }

    /// How many there are of a kind.
    pub fn of(&self, kind: FaultKind) -> u64
        ensures { result ≡ count_in self.now kind }
    {
        match kind {
            FaultKind::TsSyncLoss => self.ts_sync_loss,
            FaultKind::SyncByteError => self.sync_byte_error,
            FaultKind::PatError2 => self.pat_error_2,
            FaultKind::ContinuityCountError => self.continuity_count_error,
            FaultKind::PmtError2 => self.pmt_error_2,
            FaultKind::PidError => self.pid_error,
        }
    }

    /// One more fault, of this kind.
    pub fn add(&mut self, kind: FaultKind)
        ensures { (told : List ToldFault) (fault : ToldFault) → fault.kind ≡ kind
            → AreCountsOf self.old told → AreCountsOf self.new (told ++ fault ∷ []) }
    {
        match kind {
            FaultKind::TsSyncLoss => self.ts_sync_loss = self.ts_sync_loss.saturating_add(1),
            FaultKind::SyncByteError => {
                self.sync_byte_error = self.sync_byte_error.saturating_add(1);
            }
            FaultKind::PatError2 => self.pat_error_2 = self.pat_error_2.saturating_add(1),
            FaultKind::ContinuityCountError => {
                self.continuity_count_error = self.continuity_count_error.saturating_add(1);
            }
            FaultKind::PmtError2 => self.pmt_error_2 = self.pmt_error_2.saturating_add(1),
            FaultKind::PidError => self.pid_error = self.pid_error.saturating_add(1),
        }
    }
}
