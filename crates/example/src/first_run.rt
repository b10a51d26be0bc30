//! The first run: an input of five packets, framed, taken and sent.

ghost use Rattle.std.specs.Prelude.{◌<◌};
ghost use Rattle.mux.specs.Lawful.{input_count};

use crate::example_plan;
use crate::input_packets::packets;
use anyhow::{Result, bail};
use mux::{Mux, Slot, Taken};
use std::alloc::Global;
use tspkt::{Item, Packet, Stamped, frame, time};

/// The rate of the input, in bits a second.
const RATE: u64 = 1_504_000;
/// How many slots are sent.
const SLOTS: usize = 2;

/// Takes the packets of an input, each stamped with the time of its byte 10.
fn take_all(alloc: Global, mux: &mut Mux, input: usize, bytes: Vec<u8>) -> Result<()>
    requires { input < input_count mux.old.run.schedule }
{
    let pieces = vec![in alloc; bytes]?;
    for item in &frame(alloc, &pieces)? {
        let Item::Packet(position, bytes) = item else {
            bail!("the input is not whole packets");
        };
        let stamped = Stamped {
            packet: Packet::read(bytes)?,
            stamp: time(*position + 10, RATE),
        };
        if !matches!(&mux.take(input, stamped), Taken::Ok) {
            bail!("a packet was not taken");
        }
    }
    Ok(())
}

/// The packets of the next slots.
fn send(alloc: Global, mux: &mut Mux) -> Result<Vec<Packet>> {
    let mut sent = Vec::new(alloc);
    for _ in 0..SLOTS {
        let Slot::Sent(packet) = mux.slot() else {
            bail!("no slot was sent");
        };
        sent.push(packet)?;
    }
    Ok(sent)
}

/// The packets of the slots of a multiplex whose first input has these bytes.
fn slots_of(alloc: Global, mux: &mut Mux, bytes: Vec<u8>) -> Result<Vec<Packet>>
    requires { 0 < input_count mux.old.run.schedule }
{
    take_all(alloc, mux, 0, bytes)?;
    send(alloc, mux)
}

/// The packets of the first slots.
pub fn first_slots(alloc: Global) -> Result<Vec<Packet>> {
    let bytes = packets(alloc, &[0, 1, 2, 3, 4])?;
    let mut mux = example_plan::opened(alloc)?;
    slots_of(alloc, &mut mux, bytes)
}
