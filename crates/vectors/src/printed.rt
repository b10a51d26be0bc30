//! Bytes in print.

use std::io;
use std::io::Write;

/// Prints bytes in hex digits.
pub fn print_digits<W: Write>(bytes: &[u8], out: &mut W) -> io::Result<()> {
    for byte in bytes {
        let byte = *byte;
        write!(out, "{byte:02x}")?;
    }
    Ok(())
}

/// How many equal bytes stand at the end.
fn run_of(bytes: &[u8]) -> usize {
    let mut run = 0_usize;
    for byte in bytes.iter().rev() {
        if Some(byte) != bytes.last() {
            break;
        }
        run = run.saturating_add(1);
    }
    run
}

/// Prints bytes in hex digits; of a run of more than four equal ones at the end it prints one, and how many they are.
pub fn print_bytes<W: Write>(bytes: &[u8], out: &mut W) -> io::Result<()> {
    let run = run_of(bytes);
    let behind = if run > 4 { run.saturating_sub(1) } else { 0 };
    let front = bytes
        .get(..bytes.len().saturating_sub(behind))
        .unwrap_or(&[]);
    print_digits(front, out)?;
    if behind > 0 {
        write!(out, "*{run}")?;
    }
    Ok(())
}

/// `yes` or `no`.
pub fn yes_or_no(holds: bool) -> &'static str {
    if holds { "yes" } else { "no" }
}
