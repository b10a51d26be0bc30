//! Calls by their names.

use crate::item::Item;
use crate::kept::keep;
use crate::numbers::{at, count_at, numbers};
use crate::plans::{fast, single};
use crate::{asking, driving};
use anyhow::{Result, bail};
use example::switched;
use mux::Mux;
use std::alloc::Global;
use std::io::Write;
use std::mem;

/// Prints what a line tells: itself where it is a comment, nothing where it is empty or opens a multiplex, and else what its call
/// answered.
pub fn tell<W: Write>(alloc: Global, mux: &mut Mux, line: &str, out: &mut W) -> Result<()> {
    if line.is_empty() {
        return Ok(());
    }
    if line.starts_with('#') {
        writeln!(out, "{line}")?;
        return Ok(());
    }
    let (call, words) = call_of(line);
    let numbers = numbers(alloc, words)?;
    if matches!(call, "open" | "fast" | "switched") {
        return open(alloc, mux, call, &numbers);
    }
    answer(alloc, mux, line, call, &numbers, out)
}

/// Lets a multiplex go: each place that does is dear to prove, so all do it here.
pub fn let_go(_mux: Mux) {}

/// The name of a line's call, and the rest of the line.
fn call_of(line: &str) -> (&str, &str) {
    line.split_once(' ').unwrap_or((line, ""))
}

/// Prints a line, and behind it what its call answered.
fn answer<W: Write>(
    alloc: Global,
    mux: &mut Mux,
    line: &str,
    call: &str,
    numbers: &[u64],
    out: &mut W,
) -> Result<()> {
    write!(out, "{line}: ")?;
    if call == "kept" {
        keep(alloc, at(numbers, 0)?, out)?;
    } else {
        of_opened(mux, call, numbers, out)?;
    }
    writeln!(out)?;
    Ok(())
}

/// Prints what a call of the multiplex that was opened last answered.
fn of_opened<W: Write>(mux: &mut Mux, call: &str, numbers: &[u64], out: &mut W) -> Result<()> {
    if !of_packets(mux, call, numbers, out)? {
        of_counts(mux, call, numbers, out)?;
    }
    Ok(())
}

/// `open SLOTS QUEUE TIME..`: a multiplex for at most so many slots, with queues of so many packets, and an input that begins at each
/// of these times. `fast SLOTS`: that of a fast input. `switched SLOTS`: one whose stream goes over to another PID at slot 100.
fn open(alloc: Global, mux: &mut Mux, call: &str, numbers: &[u64]) -> Result<()> {
    let schedule = match call {
        "fast" => fast(alloc)?,
        "switched" => switched(alloc)?,
        _ => single(
            alloc,
            count_at(numbers, 1)?,
            numbers.get(2..).unwrap_or(&[]),
        )?,
    };
    let opened = asking::open(alloc, schedule, at(numbers, 0)?)?;
    let_go(mem::replace(mux, opened));
    Ok(())
}

/// The packet of an `offer` or a `take`: behind the input its PID, its counter and its time.
fn item_of(numbers: &[u64]) -> Result<Item> {
    Ok(Item {
        pid: at(numbers, 1)?,
        counter: at(numbers, 2)?,
        stamp: at(numbers, 3)?,
    })
}

/// Offers packets of an input: behind it their PID, how many they are, the time of the first, and how much later each one is.
fn offers<W: Write>(mux: &mut Mux, numbers: &[u64], out: &mut W) -> Result<()> {
    let first = Item {
        pid: at(numbers, 1)?,
        counter: 0,
        stamp: at(numbers, 3)?,
    };
    let (input, count, step) = (count_at(numbers, 0)?, at(numbers, 2)?, at(numbers, 4)?);
    driving::offers(mux, input, first, count, step, out)
}

/// Prints what a call answers that gives packets or sends them, and answers whether it is one.
fn of_packets<W: Write>(mux: &mut Mux, call: &str, numbers: &[u64], out: &mut W) -> Result<bool> {
    match call {
        "offer" => driving::offer(mux, count_at(numbers, 0)?, item_of(numbers)?, out)?,
        "offers" => offers(mux, numbers, out)?,
        "take" => driving::take(mux, count_at(numbers, 0)?, item_of(numbers)?, out)?,
        "close" => driving::close(mux, count_at(numbers, 0)?, out)?,
        "send" => driving::send(mux, out)?,
        "slot" => driving::slot(mux, out)?,
        "slots" => driving::slots(mux, at(numbers, 0)?, out)?,
        _ => return Ok(false),
    }
    Ok(true)
}

/// Prints what another call answers.
fn of_counts<W: Write>(mux: &Mux, call: &str, numbers: &[u64], out: &mut W) -> Result<()> {
    match call {
        "counts" => driving::counts(mux, out),
        "totals" => driving::totals(mux, count_at(numbers, 0)?, out),
        "level" => driving::level(mux, count_at(numbers, 0)?, out),
        "peak" => driving::peak(mux, count_at(numbers, 0)?, out),
        _ => bail!("there is no call {call}"),
    }
}
