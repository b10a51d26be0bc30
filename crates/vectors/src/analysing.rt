//! Calls that analyse.

use crate::names::Names;
use crate::numbers::{first_word, number};
use analyse::{Analyser, Fault};
use anyhow::{Result, bail};
use std::alloc::Global;
use std::io;
use std::io::Write;

/// Prints how many faults there are, and each with the name of its kind.
fn print_faults<W: Write>(faults: &[Fault], out: &mut W) -> io::Result<()> {
    write!(out, "{} faults: [", faults.len())?;
    let mut between = "";
    for fault in faults {
        let fault = *fault;
        let name = fault.kind.name();
        write!(out, "{between}{fault} {name};")?;
        between = " ";
    }
    write!(out, "]")
}

/// `analyse RATE PERIOD BYTES`: the faults of a stream of so many bits a second, where PIDs have to come within so many slots.
pub fn analysed<W: Write>(alloc: Global, names: &Names, words: &str, out: &mut W) -> Result<()> {
    let (rate, words) = first_word(words);
    let (period, words) = first_word(words);
    let mut analyser = Analyser::new(alloc, number(rate)?, number(period)?);
    let bytes = names.bytes(words)?;
    let (slots, rest) = bytes.as_chunks::<188>();
    if !rest.is_empty() {
        bail!("{} bytes are no slots", bytes.len());
    }
    let mut told = Vec::new(alloc);
    for slot in slots {
        analyser.push(slot, &mut told)?;
    }
    print_faults(&told, out)?;
    Ok(())
}
