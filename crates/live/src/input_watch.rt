//! Where the reading of an input is noted.

use crate::input_place::InputPlace;
use crate::run_board::RunBoard;
use crate::stream_counter::StreamCounter;
use schedule::Schedule;
use std::alloc::{AllocError, Global};
use std::sync::Arc;
use tspkt::PacketSize;

/// Where the reading of an input is noted: its place on a board.
#[derive(Drop)]
pub struct InputWatch {
    board: Arc<RunBoard, Global>,
    number: usize,
    counter: Option<StreamCounter>,
}

impl InputWatch {
    /// That of the input with this number of a schedule, of which nothing was read.
    fn new(
        alloc: Global,
        schedule: &Schedule,
        board: &Arc<RunBoard, Global>,
        number: usize,
    ) -> Result<InputWatch, AllocError> {
        let counter = if board.is_counted() {
            let size = size_of(schedule, number);
            Some(StreamCounter::new(alloc, schedule, number, size)?)
        } else {
            None
        };
        Ok(InputWatch {
            board: Arc::try_clone(board)?,
            number,
            counter,
        })
    }

    /// The place of the input.
    fn place(&self) -> Option<&InputPlace> {
        self.board.inputs().get(self.number)
    }

    /// The input is being read.
    pub(crate) fn begin(&self) {
        if let Some(place) = self.place() {
            place.begin_read();
        }
    }

    /// These bytes were read of it; it is over where there are none.
    pub(crate) fn end(&mut self, piece: &[u8]) {
        let counted = match &mut self.counter {
            Some(counter) => counter.count(piece),
            None => None,
        };
        if let Some(place) = self.place() {
            if let Some(counted) = counted {
                place.add_taken(counted.count, counted.last);
            }
            place.end_read(piece.len());
        }
    }
}

/// The size of the input with this number; 188 bytes where there is none.
fn size_of(schedule: &Schedule, number: usize) -> PacketSize {
    match schedule.plan(0).inputs().get(number) {
        Some(input) => input.size,
        None => PacketSize::Ts188,
    }
}

/// Where the reading of a schedule's inputs is noted, the last one first.
pub(crate) fn watches(
    alloc: Global,
    schedule: &Schedule,
    board: &Arc<RunBoard, Global>,
) -> Result<Vec<InputWatch>, AllocError> {
    let mut inputs = Vec::new(alloc);
    for number in (0..schedule.plan(0).inputs().len()).rev() {
        inputs.push(InputWatch::new(alloc, schedule, board, number)?)?;
    }
    Ok(inputs)
}
