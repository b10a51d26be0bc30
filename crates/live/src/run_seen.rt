//! What was seen of a run, and what is told of it at once.

use crate::input_place::InputPlace;
use crate::run_board::RunBoard;
use std::alloc::{AllocError, Global};
use std::io;
use std::io::Write;

/// How many looks a second has.
pub(crate) const SECOND: u64 = 10;

/// What was seen of an input.
#[derive(Clone, Copy)]
struct InputSeen {
    /// How many bytes of it were read.
    bytes: u64,
    /// For how many looks there were no more.
    looks: u64,
    /// Whether it was told that it ended.
    is_end_told: bool,
    /// Whether it was told that all wait for it, since it gave something last.
    is_wait_told: bool,
}

/// Nothing was seen yet of an input.
const UNSEEN: InputSeen = InputSeen {
    bytes: 0,
    looks: 0,
    is_end_told: false,
    is_wait_told: false,
};

impl InputSeen {
    /// Looks at the input.
    fn look(&mut self, input: &InputPlace) {
        let bytes = input.bytes();
        if bytes == self.bytes {
            self.looks = self.looks.saturating_add(1);
        } else {
            self.bytes = bytes;
            self.looks = 0;
            self.is_wait_told = false;
        }
    }

    /// Tells once that the input with this number has ended, where others go on.
    fn tell_end<W: Write>(
        &mut self,
        board: &RunBoard,
        number: usize,
        input: &InputPlace,
        writer: &mut W,
    ) -> io::Result<()> {
        if self.is_end_told || !input.is_over() {
            return Ok(());
        }
        self.is_end_told = true;
        if board.inputs().iter().all(|input| input.is_over()) {
            return Ok(());
        }
        let bytes = input.bytes();
        writeln!(
            writer,
            "report: input {number} ended at {bytes}, and others go on"
        )
    }

    /// Tells once that the input with this number makes all wait, where it has for more than a second.
    fn tell_wait<W: Write>(
        &mut self,
        board: &RunBoard,
        number: usize,
        input: &InputPlace,
        writer: &mut W,
    ) -> io::Result<()> {
        if self.is_wait_told || self.looks <= SECOND || !input.is_waited_for(board.time()) {
            return Ok(());
        }
        self.is_wait_told = true;
        writeln!(
            writer,
            "report: input {number} gives nothing for more than a second, and all wait for it"
        )
    }
}

/// What was seen of a run, which is looked at ten times a second.
#[derive(Drop)]
pub(crate) struct RunSeen {
    /// How many slots were written.
    slots: u64,
    /// For how many looks there were no more.
    looks: u64,
    inputs: Vec<InputSeen>,
}

impl RunSeen {
    /// Nothing was seen yet.
    pub fn new(alloc: Global, board: &RunBoard) -> Result<RunSeen, AllocError> {
        Ok(RunSeen {
            slots: 0,
            looks: 0,
            inputs: vec![in alloc; UNSEEN; board.inputs().len()]?,
        })
    }

    /// Looks at a run, and tells what has happened in it: an input that ended while others go on, and one for which all have waited for
    /// more than a second.
    pub fn look<W: Write>(&mut self, board: &RunBoard, writer: &mut W) -> io::Result<()> {
        let slots = board.slots();
        if slots == self.slots {
            self.looks = self.looks.saturating_add(1);
        } else {
            self.slots = slots;
            self.looks = 0;
        }
        let is_still = self.looks > SECOND;
        let inputs = self.inputs.iter_mut().zip(board.inputs().iter());
        for (number, (seen, input)) in inputs.enumerate() {
            seen.look(input);
            seen.tell_end(board, number, input, writer)?;
            if is_still {
                seen.tell_wait(board, number, input, writer)?;
            }
        }
        Ok(())
    }
}
