//! A multiplex of one input that keeps what it sends.

ghost use Rattle.std.specs.Prelude.{◌≡◌, ◌<◌, true};
ghost use Rattle.mux.specs.History.{slots};
ghost use Rattle.mux.specs.Lawful.{input_count};

use crate::item::{Item, stamped};
use crate::plans::single;
use anyhow::{Result, bail};
use mux::{RecordedMux, Slot, Taken};
use std::alloc::Global;
use std::io;
use std::io::Write;
use tspkt::Packet;

/// How many of the first bytes of a packet are printed.
const HEAD: usize = 28;

/// Prints the first bytes of a packet in hex digits.
fn print_head<W: Write>(packet: &Packet, out: &mut W) -> io::Result<()> {
    for byte in packet.bytes().iter().take(HEAD) {
        let byte = *byte;
        write!(out, "{byte:02x}")?;
    }
    Ok(())
}

/// Whether it has an input.
fn has_input(kept: &RecordedMux) -> bool
    ensures { result ≡ true → 0 < input_count kept.now.run.schedule }
{
    !kept.mux().schedule().plan(0).inputs().is_empty()
}

/// Gives its input a packet with this counter, which comes in that slot.
fn take(kept: &mut RecordedMux, counter: u64) -> Result<()> {
    let item = stamped(Item {
        pid: 257,
        counter,
        stamp: counter.saturating_mul(27_000).saturating_add(1_436),
    })?;
    if !has_input(kept) {
        bail!("there is no input");
    }
    match kept.take(0, item) {
        Taken::Ok => Ok(()),
        _ => bail!("packet {counter} was not taken"),
    }
}

/// Closes its input.
fn close(kept: &mut RecordedMux) -> Result<()> {
    if !has_input(kept) || kept.close(0).is_err() {
        bail!("not closed");
    }
    Ok(())
}

/// Sends the next slot.
fn slot(kept: &mut RecordedMux) -> Slot {
    kept.slot()
}

/// Closes its input, and sends all slots: how many they are.
fn end(kept: &mut RecordedMux) -> Result<u64> {
    close(kept)?;
    for number in 0..1_000 {
        match slot(kept) {
            Slot::Sent(_) => {}
            Slot::Done => return Ok(number),
            _ => bail!("slot {number} was not sent"),
        }
    }
    bail!("too many slots")
}

/// How many slots it sent.
fn slots_of(kept: &RecordedMux) -> u64
    ensures { result ≡ slots kept.now.events }
{
    kept.mux().slots()
}

/// The packet of a slot.
fn packet(kept: &RecordedMux, slot: u64) -> Result<Packet> {
    if slot >= slots_of(kept) {
        bail!("slot {slot} was not sent");
    }
    Ok(kept.emitted(slot))
}

/// Lets so many packets go through, and prints the first bytes of each slot's packet.
fn go_through<W: Write>(kept: &mut RecordedMux, count: u64, out: &mut W) -> Result<()> {
    for counter in 0..count {
        take(kept, counter)?;
    }
    let slots = end(kept)?;
    for slot in 0..slots {
        print_head(&packet(kept, slot)?, out)?;
        write!(out, ";")?;
    }
    Ok(())
}

/// Lets it go: each place that does is dear to prove.
fn let_go(_kept: RecordedMux) {}

/// `kept COUNT`: so many packets go through; behind the last slot the packet of each is asked for, of which the first 28 bytes are printed.
pub fn keep<W: Write>(alloc: Global, count: u64, out: &mut W) -> Result<()> {
    let mut kept = RecordedMux::open(alloc, single(alloc, 64, &[0])?, 1_000)?;
    let told = go_through(&mut kept, count, out);
    let_go(kept);
    told
}
