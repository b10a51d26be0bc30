//! Calls of a multiplex whose inputs and streams are asked for by number. What a call promises ends here, so that what prints its answer is
//! proved without it.

ghost use Rattle.std.specs.Prelude.{◌≡◌, ◌<◌, ◌≤◌, ◌^◌, true, length};
ghost use Rattle.schedule.specs.Streams.{all_streams};
ghost use Rattle.mux.specs.History.{plan_in_force};
ghost use Rattle.mux.specs.Lawful.{input_count};

use crate::item::{Item, stamped};
use anyhow::{Result, bail};
use mux::{Counts, Mux, Offered, OnePacket, Peak, Sending, Slot, Taken, Totals};
use schedule::Schedule;
use std::alloc::Global;
use tspkt::{LentPacket, Packet};

/// The most slots of a multiplex here.
const MOST_SLOTS: u64 = 1_000_000;

/// So many slots, or the most.
fn within_most(slots: u64) -> u64
    ensures { result ≤ 2 ^ 40 }
{
    slots.min(MOST_SLOTS)
}

/// A multiplex of this schedule, for at most so many slots.
pub fn open(alloc: Global, schedule: Schedule, slots: u64) -> Result<Mux> {
    let slots = within_most(slots);
    Ok(Mux::open(alloc, schedule, slots)?)
}

/// Whether a multiplex has an input of this number.
fn has_input(mux: &Mux, input: usize) -> bool
    ensures { result ≡ true → input < input_count mux.now.run.schedule }
{
    input < mux.schedule().plan(0).inputs().len()
}

/// Whether its plan in force has a stream of this number.
fn has_stream(mux: &Mux, stream: usize) -> bool
    ensures { result ≡ true → stream < length (plan_in_force mux.now.run.schedule mux.now.events).request.streams }
{
    stream < mux.plan().streams().len()
}

/// Offers a packet of an input.
pub fn offer(mux: &mut Mux, input: usize, item: Item) -> Result<Offered> {
    let item = stamped(item)?;
    if !has_input(mux, input) {
        bail!("no such input");
    }
    Ok(mux.offer(input, &LentPacket::of(&item)))
}

/// How many of so many packets are taken until one isn't, one behind the other, each so much later.
pub fn count_taken(mux: &mut Mux, input: usize, first: Item, count: u64, step: u64) -> Result<u64> {
    for place in 0..count {
        let item = Item {
            pid: first.pid,
            counter: place,
            stamp: first.stamp.saturating_add(step.saturating_mul(place)),
        };
        if offer(mux, input, item)? != Offered::Taken {
            return Ok(place);
        }
    }
    Ok(count)
}

/// Gives a packet of an input away.
pub fn take(mux: &mut Mux, input: usize, item: Item) -> Result<Taken> {
    let item = stamped(item)?;
    if !has_input(mux, input) {
        bail!("no such input");
    }
    Ok(mux.take(input, item))
}

/// Closes an input.
pub fn close(mux: &mut Mux, input: usize) -> Result<()> {
    if !has_input(mux, input) || mux.close(input).is_err() {
        bail!("not closed");
    }
    Ok(())
}

/// Sends the next slot, and has a copy of its packet.
pub fn send(mux: &mut Mux) -> (Sending, Option<Packet>) {
    let mut place = OnePacket::new();
    let answer = mux.send_next(&mut place);
    (answer, place.get().copied())
}

/// Sends the next slot, and has its packet.
pub fn slot(mux: &mut Mux) -> Slot {
    mux.slot()
}

/// How many slots there were.
pub fn slots(mux: &Mux) -> u64 {
    mux.slots()
}

/// What the slots carried.
pub fn counts(mux: &Mux) -> Counts {
    mux.counts()
}

/// What became of the packets of an input.
pub fn totals(mux: &Mux, input: usize) -> Result<Totals> {
    if !has_input(mux, input) {
        bail!("no such input");
    }
    Ok(mux.totals(input))
}

/// The level of a stream's transport buffer, in bytes times 1,504,000.
pub fn level(mux: &Mux, stream: usize) -> Result<u64> {
    if !has_stream(mux, stream) {
        bail!("no such stream");
    }
    Ok(mux.level(stream))
}

/// Whether its schedule has a stream at this place.
fn has_place(mux: &Mux, place: usize) -> bool
    ensures { result ≡ true → place < length (all_streams mux.now.run.schedule) }
{
    place < mux.schedule().streams().len()
}

/// The longest delay of a stream, and its fullest queue.
pub fn peak(mux: &Mux, place: usize) -> Result<Peak> {
    if !has_place(mux, place) {
        bail!("no such stream");
    }
    Ok(mux.peak(place))
}
