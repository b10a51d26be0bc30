//! A broadcast of one input and two readers, ticked by hand. A slot takes 27,000 ticks, and so does a packet of the input: packet k
//! has the time of slot k, and slots 0, 2 and 4 have tables. So five packets and an end mark give eight slots: the PAT, packet 0, the
//! PMT, packet 1, the SDT, and packets 2, 3 and 4.

ghost use Rattle.std.specs.Prelude.{◌≡◌, ◌<◌, length};
ghost use Rattle.schedule.specs.Streams.{all_streams};
ghost use Rattle.mux.specs.Lawful.{input_count};

mod asking;
mod device;
mod opening;
mod polling;
mod recording;
mod refusals;
mod refusing_end;
mod serial_bytes;
mod switching;

use crate::tests::asking::{
    delayed, ends, equals, is_refused, learns, reads, reads_the_pat, seals, sends, ticks, took,
};
use crate::tests::opening::{Seats, close, open};
use broadcast::{Broadcast, Ticked, TickedSlot};
use feed::FeedReader;
use mux::Sending;
use std::alloc::Global;
use std::process::Abort;
use std::sync::Wait;

/// Both packets of the ring are taken, and the slot is the PAT. Both readers read it, the second without a mark.
fn publishes_the_pat<T: Abort + Wait>(rt: &T, alloc: Global, seats: &mut Seats)
    requires feed { seats.old.first.known.feed ≡ seats.old.broadcast.feed }
    requires inputs { 0 < input_count seats.old.broadcast.station.history.run.schedule }
    ensures run { seats.new.broadcast.station.history.run ≡ seats.old.broadcast.station.history.run }
{
    let Seats {
        broadcast,
        first,
        second,
    } = seats;
    ticks(rt, broadcast, Sending::Sent, 0);
    took(rt, broadcast, 2, 0);
    learns(rt, first, broadcast, 1, false);
    reads_the_pat(rt, alloc, first);
    reads_the_pat(rt, alloc, second);
}

/// Slot 1 has the time 28,436 and slot 3 has 82,436, so the delays say that the packets came at 1,436 and 28,436.
fn shows_the_delays<T: Abort + Wait>(rt: &T, broadcast: &mut Broadcast)
    requires { 0 < length (all_streams broadcast.old.station.history.run.schedule) }
{
    sends(rt, broadcast, 1);
    delayed(rt, broadcast, 27_000);
    sends(rt, broadcast, 2);
    delayed(rt, broadcast, 54_000);
    ticks(rt, broadcast, Sending::Done, 0);
}

#[test]
fn a_tick_publishes_its_slot(rt: HostRuntime) {
    let (mut seats, port) = open(&rt, rt.alloc(), 2);
    publishes_the_pat(&rt, rt.alloc(), &mut seats);
    ends(&rt, port);
    shows_the_delays(&rt, &mut seats.broadcast);
    close(&rt, seats);
}

/// The packet of the ring was taken, though no slot can be sent.
#[test]
fn a_tick_that_sends_nothing_publishes_nothing(rt: HostRuntime) {
    let (mut seats, _port) = open(&rt, rt.alloc(), 1);
    ticks(&rt, &mut seats.broadcast, Sending::NotReady(0), 0);
    took(&rt, &seats.broadcast, 1, 0);
    reads(&rt, rt.alloc(), &mut seats.first, &[]);
    close(&rt, seats);
}

/// The PIDs of the eight slots.
const PIDS: [u16; 8] = [
    0x0000, 0x0200, 0x0100, 0x0200, 0x0011, 0x0200, 0x0200, 0x0200,
];

/// The first reader reads three slots by a mark, and the rest by the mark of the seal.
fn reads_by_marks<T: Abort + Wait>(
    rt: &T,
    alloc: Global,
    broadcast: &mut Broadcast,
    reader: &mut FeedReader,
)
    requires { reader.old.known.feed ≡ broadcast.old.feed }
    ensures { broadcast.new.feed ≡ broadcast.old.feed }
{
    sends(rt, broadcast, 3);
    learns(rt, reader, broadcast, 3, false);
    reads(rt, alloc, reader, &[0x0000, 0x0200, 0x0100]);
    sends(rt, broadcast, 5);
    ticks(rt, broadcast, Sending::Done, 0);
    reader.learn(seals(rt, broadcast, 8));
    reads(rt, alloc, reader, &[0x0200, 0x0011, 0x0200, 0x0200, 0x0200]);
    reads(rt, alloc, reader, &[]);
}

/// The second reads all at once, by a mark that was made after the seal.
fn reads_all<T: Abort + Wait>(
    rt: &T,
    alloc: Global,
    broadcast: &mut Broadcast,
    reader: &mut FeedReader,
)
    requires { reader.old.known.feed ≡ broadcast.old.feed }
{
    assert!(rt; broadcast.seal(rt).is_none());
    learns(rt, reader, broadcast, 8, true);
    reads(rt, alloc, reader, &PIDS);
}

#[test]
fn readers_read_by_their_marks(rt: HostRuntime) {
    let (mut seats, port) = open(&rt, rt.alloc(), 5);
    ends(&rt, port);
    reads_by_marks(&rt, rt.alloc(), &mut seats.broadcast, &mut seats.first);
    reads_all(&rt, rt.alloc(), &mut seats.broadcast, &mut seats.second);
    close(&rt, seats);
}

/// After the seal slots go out, and aren't published.
fn sends_after_the_seal<T: Abort + Wait>(
    rt: &T,
    alloc: Global,
    broadcast: &mut Broadcast,
    reader: &mut FeedReader,
)
    requires { reader.old.known.feed ≡ broadcast.old.feed }
{
    sends(rt, broadcast, 3);
    reader.learn(seals(rt, broadcast, 3));
    ticks(rt, broadcast, Sending::Sent, 1);
    ticks(rt, broadcast, Sending::Sent, 2);
    equals(rt, broadcast.publish(rt), 2);
    reads(rt, alloc, reader, &[0x0000, 0x0200, 0x0100]);
    reads(rt, alloc, reader, &[]);
}

#[test]
fn nothing_is_published_behind_the_seal(rt: HostRuntime) {
    let (mut seats, port) = open(&rt, rt.alloc(), 5);
    ends(&rt, port);
    sends_after_the_seal(&rt, rt.alloc(), &mut seats.broadcast, &mut seats.first);
    close(&rt, seats);
}

/// All slots go out in one call, which publishes them.
fn advances_to_the_end<T: Abort + Wait>(rt: &T, broadcast: &mut Broadcast) {
    let done = Ticked {
        slot: TickedSlot::Answered(Sending::Done),
        behind: 0,
    };
    assert_eq!(rt; broadcast.advance(rt, 256), done);
    equals(rt, broadcast.slots(), 8);
    equals(rt, broadcast.counts().elementary, 5);
}

#[test]
fn steps_are_published_at_once(rt: HostRuntime) {
    let (mut seats, port) = open(&rt, rt.alloc(), 5);
    ends(&rt, port);
    advances_to_the_end(&rt, &mut seats.broadcast);
    reads(&rt, rt.alloc(), &mut seats.first, &PIDS);
    close(&rt, seats);
}

/// Many steps in one go do nothing, for want of a packet of input 0.
fn waits<T: Abort + Wait>(rt: &T, broadcast: &mut Broadcast) {
    let waits = Ticked {
        slot: TickedSlot::Answered(Sending::NotReady(0)),
        behind: 0,
    };
    assert_eq!(rt; broadcast.advance(rt, 256), waits);
    equals(rt, broadcast.slots(), 0);
}

#[test]
fn steps_over_an_empty_ring_do_nothing(rt: HostRuntime) {
    let (mut seats, _port) = open(&rt, rt.alloc(), 0);
    waits(&rt, &mut seats.broadcast);
    close(&rt, seats);
}

/// One reader read what was published, and the other nothing yet.
#[test]
fn a_closed_feed_lets_no_reader_in(rt: HostRuntime) {
    let (mut seats, _port) = open(&rt, rt.alloc(), 5);
    sends(&rt, &mut seats.broadcast, 3);
    reads(&rt, rt.alloc(), &mut seats.first, &[0x0000, 0x0200, 0x0100]);
    let Seats {
        broadcast,
        mut first,
        mut second,
    } = seats;
    broadcast.close(&rt);
    is_refused(&rt, rt.alloc(), &mut first);
    is_refused(&rt, rt.alloc(), &mut second);
}
