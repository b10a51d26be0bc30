//! Calls on the rounds of tables.

use crate::numbers::numbers;
use crate::printed::yes_or_no;
use anyhow::{Result, bail};
use rounds::{TableRounds, TableTurn};
use std::alloc::Global;
use std::io;
use std::io::Write;

/// Whether a turn goes to the same places in so many slots.
fn is_same_turn(rounds: &TableRounds, slots: u32) -> bool {
    let mut turn = TableTurn::new(rounds);
    let mut is_same = true;
    for slot in 0..slots {
        is_same = is_same && turn.slot() == u64::from(slot);
        is_same = is_same && turn.next() == rounds.table_at(u64::from(slot));
        if turn.slot() < u64::MAX {
            turn.advance();
        }
    }
    is_same
}

/// Prints the gap, what each of these slots carries, and whether a turn of 2,000 slots goes to the same places.
fn print_rounds<W: Write>(rounds: &TableRounds, slots: &[u64], out: &mut W) -> io::Result<()> {
    write!(out, "gap {}", rounds.gap())?;
    for slot in slots {
        let place = rounds.table_at(*slot);
        write!(out, ", {slot} {place:?}")?;
    }
    let told = yes_or_no(is_same_turn(rounds, 2_000));
    write!(out, ", turn {told}")
}

/// `rounds RATE,PERIOD,FAST,SLOW,SLOT..`: rounds of a multiplex of so many bits a second, one each so many slots, with so many packets of
/// PAT and PMT and so many of SDT and NIT: what these slots carry, or the fault.
pub fn rounds_of<W: Write>(alloc: Global, words: &str, out: &mut W) -> Result<()> {
    let all = numbers(alloc, words)?;
    let [rate, period, fast, slow, slots @ ..] = all.as_slice() else {
        bail!("four numbers are wanted");
    };
    let (rate, period, fast, slow) = (*rate, *period, *fast, *slow);
    if rate < 500_000 || rate > 100_000_000 || period < 1 || period > 1_000_000 {
        bail!("a rate or a period out of its range");
    }
    if fast < 1 || fast > 1_000 || slow < 1 || slow > 1_000 {
        bail!("a number of packets out of its range");
    }
    match TableRounds::new(rate, period, fast as usize, slow as usize) {
        Ok(rounds) => print_rounds(&rounds, slots, out)?,
        Err(fault) => write!(out, "{fault:?}: {fault}")?,
    }
    Ok(())
}
