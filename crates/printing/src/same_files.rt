//! Inputs that are one file, in lines.

use files::InputFile;
use std::io;
use std::io::Write;

/// Prints of each input that is the file of one before it that it is.
pub fn print_same_files<R: InputFile, E: Write>(readers: &[R], err: &mut E) -> io::Result<()> {
    for (number, reader) in readers.iter().enumerate() {
        let Some(file) = reader.identity() else {
            continue;
        };
        let first = readers
            .iter()
            .take(number)
            .position(|other| other.identity() == Some(file));
        if let Some(first) = first {
            writeln!(
                err,
                "inputs: {first} and {number} are one file; services of one file can share an [[input]]"
            )?;
        }
    }
    Ok(())
}
