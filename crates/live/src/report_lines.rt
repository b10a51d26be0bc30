//! How far a run is, in lines.

use crate::input_place::InputPlace;
use crate::run_board::RunBoard;
use std::io;
use std::io::Write;

/// Prints how far an input is.
fn print_input<W: Write>(
    board: &RunBoard,
    number: usize,
    input: &InputPlace,
    writer: &mut W,
) -> io::Result<()> {
    let is_over = input.is_over();
    let (position, queue) = (input.bytes(), input.queue());
    write!(writer, ", input {number} position {position}")?;
    if !board.is_counted() {
        return if is_over {
            write!(writer, " ended")
        } else {
            Ok(())
        };
    }
    write!(writer, " queue {queue}")?;
    if is_over {
        return write!(writer, " ended");
    }
    if input.is_waited_for(board.time()) {
        return write!(writer, " waited for");
    }
    Ok(())
}

/// Prints how far a run is, in a line: its slots, and of each input how many bytes were read, and whether it has ended. Where packets are
/// counted it has the faults too, and of each input how many packets of its streams were read and haven't gone out, and whether it is
/// waited for.
pub fn print_board<W: Write>(board: &RunBoard, writer: &mut W) -> io::Result<()> {
    let (slots, faults) = (board.slots(), board.faults());
    write!(writer, "report: slots {slots}")?;
    if board.is_counted() {
        write!(writer, " faults {faults}")?;
    }
    for (number, input) in board.inputs().iter().enumerate() {
        print_input(board, number, input, writer)?;
    }
    writeln!(writer)
}
