//! How far a run is, in a line that a person looks at while it goes on.

use crate::goal::Goal;
use crate::pace::{speed, time_left};
use crate::run_board::RunBoard;
use std::io;
use std::io::Write;

/// Milliseconds in a second.
const SECOND: u64 = 1_000;

/// Prints how much of each input was read, in per cent, and `-` where its length isn't known.
fn print_inputs<W: Write>(board: &RunBoard, goal: &Goal, writer: &mut W) -> io::Result<()> {
    write!(writer, ", inputs")?;
    for (number, input) in board.inputs().iter().enumerate() {
        match goal.length(number) {
            Some(length) => {
                let read = input.bytes().saturating_mul(100);
                let percent = read.checked_div(length).unwrap_or(100).min(100);
                write!(writer, " {percent}")?;
            }
            None => write!(writer, " -")?,
        }
    }
    write!(writer, " %")
}

/// Prints how far a run is after so many milliseconds, without the end of the line: its slots, how much of its inputs was read, how long its
/// multiplex is and will be, how many times as fast as it is shown it is made, and how long that still takes.
pub(crate) fn print_progress<W: Write>(
    board: &RunBoard,
    goal: &Goal,
    elapsed: u64,
    writer: &mut W,
) -> io::Result<()> {
    let (slots, time) = (board.slots(), board.time());
    write!(writer, "slots {slots}")?;
    print_inputs(board, goal, writer)?;
    let seconds = time / SECOND;
    match goal.end() {
        Some(end) => {
            let end = end / SECOND;
            write!(writer, ", {seconds} of {end} s")?;
        }
        None => write!(writer, ", {seconds} s")?,
    }
    let tenths = speed(time, elapsed);
    let (whole, tenth) = (tenths / 10, tenths % 10);
    write!(writer, ", {whole}.{tenth}x")?;
    match goal.end() {
        Some(end) if time > 0 => {
            let left = time_left(time, end, elapsed).div_ceil(SECOND);
            write!(writer, ", {left} s left")
        }
        _ => Ok(()),
    }
}
