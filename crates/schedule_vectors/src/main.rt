//! Schedules, line by line: what is said of plans one after another. A line of standard input that begins with # is printed as it is; one
//! that begins with `at` asks which stream a packet is of by the schedule of the last line, and `switches` asks for its switches; one that
//! begins with `single` has one plan, and each other one has plans, of which it is printed whether they make a schedule. `stdout` has what is to be printed, by the rules that stand there and by hand.
#![tactic(auto)]

mod asked;
mod plan_words;
mod planned_line;

use crate::asked::ask;
use crate::planned_line::{build, single, tell_switches};
use anyhow::Result;
use schedule::Schedule;
use std::alloc::Global;
use std::io::{BufWriter, Write};

/// Prints what a line tells.
fn tell<W: Write>(
    alloc: Global,
    last: &mut Option<Schedule>,
    line: &str,
    out: &mut W,
) -> Result<()> {
    if line.starts_with('#') {
        writeln!(out, "{line}")?;
        return Ok(());
    }
    write!(out, "{line}: ")?;
    if let Some(words) = line.strip_prefix("at ") {
        ask(alloc, last, words, out)?;
    } else if line == "switches" {
        tell_switches(last, out)?;
    } else if let Some(words) = line.strip_prefix("single") {
        *last = Some(single(alloc, words, out)?);
    } else {
        *last = build(alloc, line, out)?;
    }
    writeln!(out)?;
    Ok(())
}

fn main(rt: HostRuntime) -> Result<()> {
    let alloc = rt.alloc();
    let mut last = None;
    let mut out = BufWriter::new(alloc, rt.stdout())?;
    for line in rt.lines(alloc) {
        tell(alloc, &mut last, line?.as_str(), &mut out)?;
    }
    out.flush()?;
    Ok(())
}
