//! The kinds of faults.

use std::fmt;

/// A fault of the first priority of ETSI TR 101 290 (5.2.1), with its number and name there.
#[derive(Clone, Copy, Debug, PartialEq, Eq)]
pub enum FaultKind {
    /// 1.1 TS_sync_loss.
    TsSyncLoss,
    /// 1.2 Sync_byte_error.
    SyncByteError,
    /// 1.3.a PAT_error_2.
    PatError2,
    /// 1.4 Continuity_count_error.
    ContinuityCountError,
    /// 1.5.a PMT_error_2.
    PmtError2,
    /// 1.6 PID_error.
    PidError,
}

impl FaultKind {
    ghost use Rattle.std.specs.Prelude.{◌≡◌};
    ghost use Rattle.analyse.specs.FaultNames.{number_of, name_of};

    /// Its number in ETSI TR 101 290, 5.2.1.
    pub fn number(&self) -> &'static str
        ensures { result.now ≡ number_of self.now }
    {
        match self {
            FaultKind::TsSyncLoss => "1.1",
            FaultKind::SyncByteError => "1.2",
            FaultKind::PatError2 => "1.3.a",
            FaultKind::ContinuityCountError => "1.4",
            FaultKind::PmtError2 => "1.5.a",
            FaultKind::PidError => "1.6",
        }
    }

    /// Its name there.
    pub fn name(&self) -> &'static str
        ensures { result.now ≡ name_of self.now }
    {
        match self {
            FaultKind::TsSyncLoss => "TS_sync_loss",
            FaultKind::SyncByteError => "Sync_byte_error",
            FaultKind::PatError2 => "PAT_error_2",
            FaultKind::ContinuityCountError => "Continuity_count_error",
            FaultKind::PmtError2 => "PMT_error_2",
            FaultKind::PidError => "PID_error",
        }
    }
}

/// Prints the number.
impl fmt::Display for FaultKind {
    ghost use Rattle.std.specs.Prelude.{Some};
    ghost use Rattle.analyse.specs.FaultNames.{number_of};

    ghost output = { λ kind. Some (number_of kind) };

    fn fmt<W: fmt::Write>(&self, f: &mut fmt::Formatter<W>) -> fmt::Result {
        let number = self.number();
        write!(f, "{number}")
    }
}
