//! Why there are no rounds.

use thiserror::Error;

/// Why the tables can't be sent in such rounds. The first that applies is answered.
#[derive(Clone, Copy, Debug, PartialEq, Eq, Error)]
pub enum RoundsFault {
    /// The packets of a round, with their gaps, take longer than the period.
    #[error("a round of tables is longer than its period")]
    RoundTooLong,
    /// PAT and PMTs, or the SDT, would come too seldom.
    #[error("the period of the tables is too long")]
    PeriodTooLong,
}
