//! A multiplex, call by call. Each line of standard input is a call of the multiplex that was opened last, of which the printed line says
//! what it answered; a line that begins with # is printed as it is. `stdout` has what is to be printed, worked out on paper by the rule
//! that each example of a plan comes with: a slot and a packet of an input take 27,000 ticks of 27 MHz.
#![tactic(auto)]

mod asking;
mod calls;
mod driving;
mod item;
mod kept;
mod numbers;
mod plans;

use crate::asking::open;
use crate::calls::{let_go, tell};
use crate::plans::fast;
use anyhow::Result;
use mux::Mux;
use std::alloc::Global;
use std::io::{BufWriter, Write};

/// Tells each line of standard input.
fn tell_lines<W: Write>(alloc: Global, rt: HostRuntime, mux: &mut Mux, out: &mut W) -> Result<()> {
    for line in rt.lines(alloc) {
        tell(alloc, mux, line?.as_str(), out)?;
    }
    Ok(())
}

fn main(rt: HostRuntime) -> Result<()> {
    let alloc = rt.alloc();
    let mut out = BufWriter::new(alloc, rt.stdout())?;
    // That of no slot is there before the first is opened.
    let mut mux = open(alloc, fast(alloc)?, 0)?;
    let told = tell_lines(alloc, rt, &mut mux, &mut out);
    let_go(mux);
    told?;
    out.flush()?;
    Ok(())
}
