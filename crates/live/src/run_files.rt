//! Files of runs.

use crate::run_board::RunBoard;
use files::Files;
use graphs::Record;
use schedule::Schedule;
use std::alloc::{AllocError, Global};
use std::sync::Arc;

/// Files that note how far a run over them is.
pub trait RunFiles: Files {
    /// A board on which it is noted how far a run of this schedule is: by the inputs that are opened again from now on, which are taken for
    /// those of its plans in their order, and by the next output. Whether its packets and faults are counted is `is_counted`, and
    /// whether as much of it is kept as a picture needs is `is_drawn`.
    fn watch(
        &mut self,
        alloc: Global,
        schedule: &Schedule,
        is_counted: bool,
        is_drawn: bool,
    ) -> Result<Arc<RunBoard, Global>, AllocError>;

    /// What was kept of an output for a picture, if it was; it is kept no longer.
    fn take_record(writer: &mut Self::Writer) -> Option<Record>;
}
