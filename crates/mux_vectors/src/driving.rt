//! What the calls of a multiplex answer, printed.

use crate::asking;
use crate::item::Item;
use anyhow::{Result, bail};
use mux::{Mux, Sending, Slot, Taken};
use std::io;
use std::io::Write;
use tspkt::{Packet, Stamped};

/// Prints a packet that went out: its PID and its counter.
fn print_packet<W: Write>(packet: &Packet, out: &mut W) -> io::Result<()> {
    write!(out, "0x{:04x} {}", packet.pid(), packet.counter())
}

/// Why a packet came back that was given away, in a word, and that packet; none where it was taken.
fn back_of(taken: Taken) -> Option<(&'static str, Stamped)> {
    match taken {
        Taken::Ok => None,
        Taken::Closed(back) => Some(("Closed", back)),
        Taken::Stranger(back) => Some(("Stranger", back)),
        Taken::Backward(back) => Some(("Backward", back)),
        Taken::Early(back) => Some(("Early", back)),
        Taken::Full(back) => Some(("Full", back)),
        Taken::Memory(back) => Some(("Memory", back)),
    }
}

/// `offer INPUT PID COUNTER TIME`
pub fn offer<W: Write>(mux: &mut Mux, input: usize, item: Item, out: &mut W) -> Result<()> {
    let offered = asking::offer(mux, input, item)?;
    write!(out, "{offered:?}")?;
    Ok(())
}

/// `offers INPUT PID COUNT TIME STEP`
pub fn offers<W: Write>(
    mux: &mut Mux,
    input: usize,
    first: Item,
    count: u64,
    step: u64,
    out: &mut W,
) -> Result<()> {
    let taken = asking::count_taken(mux, input, first, count, step)?;
    write!(out, "{taken}")?;
    Ok(())
}

/// `take INPUT PID COUNTER TIME`: the packet is given away.
pub fn take<W: Write>(mux: &mut Mux, input: usize, item: Item, out: &mut W) -> Result<()> {
    match back_of(asking::take(mux, input, item)?) {
        None => write!(out, "Taken")?,
        Some((reason, back)) => {
            let (counter, stamp) = (back.packet.counter(), back.stamp);
            write!(out, "{reason}, and packet {counter} of {stamp} came back")?;
        }
    }
    Ok(())
}

/// `close INPUT`
pub fn close<W: Write>(mux: &mut Mux, input: usize, out: &mut W) -> Result<()> {
    asking::close(mux, input)?;
    write!(out, "closed")?;
    Ok(())
}

/// `send`: the next slot.
pub fn send<W: Write>(mux: &mut Mux, out: &mut W) -> Result<()> {
    match asking::send(mux) {
        (Sending::Sent, Some(packet)) => print_packet(&packet, out)?,
        (answer, _) => write!(out, "{answer:?}")?,
    }
    Ok(())
}

/// `slot`: the same, and the packet is handed out.
pub fn slot<W: Write>(mux: &mut Mux, out: &mut W) -> Result<()> {
    match asking::slot(mux) {
        Slot::Sent(packet) => print_packet(&packet, out)?,
        Slot::NotReady(input) => write!(out, "NotReady({input})")?,
        Slot::Switched => write!(out, "Switched")?,
        Slot::Done => write!(out, "Done")?,
        Slot::RunFull => write!(out, "RunFull")?,
        Slot::Memory => write!(out, "Memory")?,
    }
    Ok(())
}

/// Sends a slot, and prints its number and its packet behind these words where that isn't null. Whether it did.
fn print_slot<W: Write>(mux: &mut Mux, between: &str, out: &mut W) -> Result<bool> {
    let number = asking::slots(mux);
    let Slot::Sent(packet) = asking::slot(mux) else {
        bail!("slot {number} was not sent");
    };
    if packet.pid() == 0x1FFF {
        return Ok(false);
    }
    write!(out, "{between}{number} ")?;
    print_packet(&packet, out)?;
    Ok(true)
}

/// `slots COUNT`: as many slots, of which those with a packet are told that isn't null, by their numbers.
pub fn slots<W: Write>(mux: &mut Mux, count: u64, out: &mut W) -> Result<()> {
    let mut between = "";
    for _ in 0..count {
        if print_slot(mux, between, out)? {
            between = ", ";
        }
    }
    Ok(())
}

/// `counts`: how many slots there were, and what they carried.
pub fn counts<W: Write>(mux: &Mux, out: &mut W) -> Result<()> {
    let (slots, counts) = (asking::slots(mux), asking::counts(mux));
    let (tables, elementary, null) = (counts.tables, counts.elementary, counts.null);
    write!(
        out,
        "{slots} slots, tables {tables}, elementary {elementary}, null {null}"
    )?;
    Ok(())
}

/// `totals INPUT`
pub fn totals<W: Write>(mux: &Mux, input: usize, out: &mut W) -> Result<()> {
    let totals = asking::totals(mux, input)?;
    let (taken, sent, dropped, queued) = (totals.taken, totals.sent, totals.dropped, totals.queued);
    write!(
        out,
        "taken {taken}, sent {sent}, dropped {dropped}, queued {queued}"
    )?;
    Ok(())
}

/// `level STREAM`: that of its transport buffer, in bytes times 1,504,000.
pub fn level<W: Write>(mux: &Mux, stream: usize, out: &mut W) -> Result<()> {
    write!(out, "{}", asking::level(mux, stream)?)?;
    Ok(())
}

/// `peak STREAM`
pub fn peak<W: Write>(mux: &Mux, stream: usize, out: &mut W) -> Result<()> {
    let peak = asking::peak(mux, stream)?;
    let (delay, queued) = (peak.delay, peak.queued);
    write!(out, "delay {delay}, queued {queued}")?;
    Ok(())
}
