//! Vectors from outside. Each line of standard input is a call with its arguments, of which the printed line says what it found; a
//! line that begins with # is printed as it is, and one with ` = ` gives bytes a name. `stdout` has what is to be printed: values worked
//! out by hand from the standards, computed by programs apart from this repository, or by `scripts/analyser_vectors.py`, as the lines say.
#![tactic(auto)]

mod acquiring;
mod analysing;
mod buffering;
mod calls;
mod framing;
mod names;
mod numbers;
mod packets;
mod printed;
mod rhythm;
mod sections;
mod table_calls;
mod told;

use crate::calls::tell;
use crate::names::Names;
use anyhow::Result;
use std::io::{BufWriter, Write};

fn main(rt: HostRuntime) -> Result<()> {
    let alloc = rt.alloc();
    let mut names = Names::new(alloc);
    let mut out = BufWriter::new(alloc, rt.stdout())?;
    for line in rt.lines(alloc) {
        tell(alloc, &mut names, line?.as_str(), &mut out)?;
    }
    out.flush()?;
    Ok(())
}
