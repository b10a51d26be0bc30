//! A broadcast that goes over from one plan to the next, and two readers: one reads behind each tick, and the other at the end alone.

use crate::tests::asking::seals;
use crate::tests::polling::{input_bytes, polls, reads_on, send_more};
use crate::tests::serial_bytes::serial_bytes;
use broadcast::{Broadcast, TickedSlot};
use example::switched;
use feed::FeedReader;
use mux::Sending;
use port::Port;
use schedule::Schedule;
use std::alloc::Global;
use std::process::Abort;
use std::sync::Wait;

/// How many packets the input has: 106 slots go out of them, with a switch at slot 100.
const PACKETS: u32 = 103;

fn schedule_of(rt: &impl Abort, alloc: Global) -> Schedule {
    switched(alloc).expect(rt, "a schedule")
}

/// A broadcast, the port of its input, and two readers.
struct Seats {
    broadcast: Broadcast,
    port: Port,
    first: FeedReader,
    last: FeedReader,
}

fn open<T: Abort + Wait>(rt: &T, alloc: Global) -> Seats {
    let schedule = schedule_of(rt, alloc);
    let (broadcast, mut ports, mut readers) = Broadcast::open(rt, alloc, schedule, 1_000, 2).expect(
        rt,
        "a broadcast",
    );
    Seats {
        broadcast,
        port: ports.pop().expect(rt, "a port"),
        first: readers.pop().expect(rt, "two readers"),
        last: readers.pop().expect(rt, "two readers"),
    }
}

/// Sends the packets of the input and ticks until the run is done. The reader reads behind each tick, these bytes and nothing else.
fn reads_behind_each_tick<T: Abort + Wait>(
    rt: &T,
    alloc: Global,
    broadcast: &mut Broadcast,
    port: Port,
    reader: FeedReader,
    bytes: &[u8],
) {
    let (mut port, mut sent) = (Some(port), 0);
    let (mut reader, mut rest) = (reader, bytes);
    for _ in rt.forever() {
        port = match port {
            Some(port) => send_more(rt, port, PACKETS, &mut sent),
            None => None,
        };
        let slot = broadcast.tick(rt).slot;
        rest = reads_on(rt, alloc, &mut reader, rest);
        if slot == TickedSlot::Answered(Sending::Done) {
            break;
        }
    }
    assert!(rt; rest.is_empty());
}

#[test]
fn readers_read_over_a_switch(rt: HostRuntime) {
    let alloc = rt.alloc();
    let input = input_bytes(&rt, alloc, PACKETS);
    let bytes = serial_bytes(&rt, alloc, schedule_of(&rt, alloc), input.as_slice());
    assert!(rt; bytes.len() == 19_928);
    let Seats {
        mut broadcast,
        port,
        first,
        last,
    } = open(&rt, alloc);
    reads_behind_each_tick(&rt, alloc, &mut broadcast, port, first, bytes.as_slice());
    seals(&rt, &mut broadcast, 106);
    polls(&rt, alloc, last, bytes.as_slice());
    broadcast.close(&rt);
}
