//! Packets of a schedule.

use anyhow::{Result, bail};
use schedule::Schedule;
use std::alloc::Global;
use std::io::Write;

/// Three numbers with blanks between them.
fn three_numbers(words: &str) -> Option<(usize, u16, u64)> {
    let mut words = words.split_ascii_whitespace();
    let input = words.next()?.parse::<usize>().ok()?;
    let pid = words.next()?.parse::<u16>().ok()?;
    let stamp = words.next()?.parse::<u64>().ok()?;
    Some((input, pid, stamp))
}

/// Prints which plan a packet belongs to, which stream of it the packet is of, and the place of that stream among all: of a packet's
/// input, its PID, and its time in ticks of 27 MHz.
pub fn ask<W: Write>(
    alloc: Global,
    schedule: &Option<Schedule>,
    words: &str,
    out: &mut W,
) -> Result<()> {
    let Some(schedule) = schedule else {
        bail!("there is no schedule");
    };
    let Some((input, pid, stamp)) = three_numbers(words) else {
        bail!("{words} are no packet");
    };
    let copy = schedule.copy(alloc)?;
    let number = copy.number_for(stamp);
    write!(out, "plan {number}, ")?;
    match (copy.lookup(input, pid, stamp), copy.find(input, pid, stamp)) {
        (Some(stream), Some(place)) => {
            let (number, pid, leak) = (stream.number, stream.output_pid, stream.leak);
            let count = copy.streams().len();
            write!(
                out,
                "stream {number} on PID {pid}, {leak} bits a second, place {place} of {count}"
            )?;
        }
        (None, None) => write!(out, "no stream")?,
        _ => bail!("a stream without a place, or a place without a stream"),
    }
    Ok(())
}
