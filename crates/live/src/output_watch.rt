//! Where the writing of an output is noted.

use crate::output_counter::OutputCounter;
use crate::picture_watch::PictureWatch;
use crate::run_board::RunBoard;
use graphs::Record;
use schedule::Schedule;
use std::alloc::{AllocError, Global};
use std::sync::Arc;

/// Where the writing of an output is noted: on a board, and for a picture.
#[derive(Drop)]
pub struct OutputWatch {
    board: Arc<RunBoard, Global>,
    counter: Option<OutputCounter>,
    picture: Option<PictureWatch>,
}

impl OutputWatch {
    /// That of a schedule's multiplex, of which nothing was written. Whether as much of it is kept as a picture needs is `is_drawn`.
    pub(crate) fn new(
        alloc: Global,
        schedule: &Schedule,
        board: &Arc<RunBoard, Global>,
        is_drawn: bool,
    ) -> Result<OutputWatch, AllocError> {
        let counter = if board.is_counted() {
            Some(OutputCounter::new(alloc, schedule)?)
        } else {
            None
        };
        let picture = if is_drawn {
            Some(PictureWatch::new(Record::new(alloc, schedule)?))
        } else {
            None
        };
        Ok(OutputWatch {
            board: Arc::try_clone(board)?,
            counter,
            picture,
        })
    }

    /// What was kept for a picture, if it was; it is kept no longer.
    pub(crate) fn take_record(&mut self) -> Option<Record> {
        Some(self.picture.take()?.into_record())
    }

    /// These bytes were written.
    pub(crate) fn add(&mut self, bytes: &[u8]) {
        self.board.add_written(bytes.len());
        if let Some(counter) = &mut self.counter {
            counter.count(bytes, &self.board);
        }
        if let Some(picture) = &mut self.picture {
            picture.add(bytes);
        }
    }
}
