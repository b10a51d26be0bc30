//! A document.

use files::CommandFault;
use serde::Serialize;
use std::alloc::Global;
use std::io::Write;

/// The version of the documents' shape, which each has as its member `format`. A member that is added leaves it.
pub const FORMAT: u64 = 1;

/// Prints a value as JSON, in a line.
pub fn print_document<T: Serialize, O: Write>(
    alloc: Global,
    value: &T,
    out: &mut O,
) -> Result<(), CommandFault> {
    let Ok(text) = serde_json::to_string(alloc, value) else {
        return Err(CommandFault::Memory);
    };
    writeln!(out, "{text}")?;
    Ok(())
}
