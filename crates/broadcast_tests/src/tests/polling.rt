//! Two threads that lock and tick a broadcast of two inputs, two readers that poll it meanwhile, and one that reads at the end.

use crate::tests::asking::{item, piece_of, seals};
use crate::tests::serial_bytes::serial_bytes;
use broadcast::{Broadcast, MAX_STEPS, TickedSlot};
use example::plan_with_rings;
use feed::{FeedReader, PublishingEnd, ReadingEnd};
use mux::Sending;
use port::Port;
use schedule::Schedule;
use std::alloc::Global;
use std::process::Abort;
use std::sync::{Mutex, Wait};
use std::thread;
use std::thread::Threads;
use tspkt::Packet;

/// How two threads go on.
#[derive(Clone, Copy)]
struct Work {
    /// How many packets each input has.
    packets: u32,
    /// How many steps a lock is held for, or none for a tick.
    steps: Option<usize>,
    /// How many packets a ring has room for; a queue has it for eight of them at most.
    room: usize,
}

/// Offers the next packets of an input, of which it has so many, as long as the ring has room, and the end mark behind them all. The
/// port comes back until the mark went into the ring.
pub fn send_more(rt: &impl Abort, port: Port, packets: u32, sent: &mut u64) -> Option<Port> {
    let mut port = port;
    while *sent < u64::from(packets) {
        if port.offer(item(rt, *sent)).is_err() {
            return Some(port);
        }
        *sent += 1;
    }
    port.end().err()
}

/// What two threads lock and go on with.
trait GoesOn {
    /// Goes on by a tick, or by so many steps.
    fn goes_on<T: Wait>(&mut self, rt: &T, steps: Option<usize>) -> TickedSlot;
}

impl<E: PublishingEnd> GoesOn for Broadcast<E> {
    fn goes_on<T: Wait>(&mut self, rt: &T, steps: Option<usize>) -> TickedSlot {
        match steps {
            Some(steps) => self.advance(rt, steps.min(MAX_STEPS)).slot,
            None => self.tick(rt).slot,
        }
    }
}

/// Sends the packets of an input, and locks and goes on, until nothing is left to send.
fn send_and_tick<T: Wait + Abort, B: GoesOn>(rt: &T, shared: &Mutex<B>, port: Port, work: Work) {
    let mut port = Some(port);
    let mut sent = 0;
    for _ in rt.forever() {
        port = match port {
            Some(port) => send_more(rt, port, work.packets, &mut sent),
            None => None,
        };
        let slot = shared.lock(rt).goes_on(rt, work.steps);
        match slot {
            TickedSlot::Answered(Sending::Sent | Sending::Switched | Sending::NotReady(_)) => {
                thread::yield_now()
            }
            _ => break,
        }
    }
}

/// The packet stands at the front of these bytes: those after it.
fn after<'a>(rt: &impl Abort, packet: &Packet, bytes: &'a [u8]) -> &'a [u8] {
    assert!(rt; bytes.get(..188) == Some(packet.bytes().as_slice()));
    bytes.get(188..).unwrap_or(&[])
}

/// Reads on. What is read stands at the front of these bytes: those after it.
pub fn reads_on<'a, R: ReadingEnd + Drop>(
    rt: &impl Abort,
    alloc: Global,
    reader: &mut FeedReader<R>,
    bytes: &'a [u8],
) -> &'a [u8] {
    let piece = piece_of(rt, alloc, reader);
    let mut rest = bytes;
    for packet in &piece {
        rest = after(rt, packet, rest);
    }
    rest
}

/// Reads until these bytes were read, and nothing else.
pub fn polls<T: Wait + Abort, R: ReadingEnd + Drop>(
    rt: &T,
    alloc: Global,
    reader: FeedReader<R>,
    bytes: &[u8],
) {
    let mut reader = reader;
    let mut rest = bytes;
    for _ in rt.forever() {
        rest = reads_on(rt, alloc, &mut reader, rest);
        if rest.is_empty() {
            break;
        }
        thread::yield_now();
    }
}

/// Two threads tick, each of which sends the packets of an input.
fn tick_both<T: Threads + Wait + Abort + Sync, B: GoesOn + Send>(
    rt: &T,
    shared: &Mutex<B>,
    ports: (Port, Port),
    work: Work,
) {
    let (first, second) = ports;
    thread::join(
        rt,
        move || send_and_tick(rt, shared, first, work),
        move || send_and_tick(rt, shared, second, work),
    );
}

/// Two threads poll.
fn poll_both<T: Threads + Wait + Abort + Sync, R: ReadingEnd + Drop + Send>(
    rt: &T,
    alloc: Global,
    readers: (FeedReader<R>, FeedReader<R>),
    bytes: &[u8],
) {
    let (first, second) = readers;
    thread::join(
        rt,
        move || polls(rt, alloc, first, bytes),
        move || polls(rt, alloc, second, bytes),
    );
}

/// Two threads tick while two poll, until these bytes went out and were read. What was ticked comes back.
fn tick_and_poll<T: Threads + Wait + Abort + Sync, B: GoesOn + Send, R: ReadingEnd + Drop + Send>(
    rt: &T,
    alloc: Global,
    ticked: B,
    ports: (Port, Port),
    readers: (FeedReader<R>, FeedReader<R>),
    work: Work,
    bytes: &[u8],
) -> B {
    let lock = Mutex::new(ticked);
    let shared = &lock;
    thread::join(
        rt,
        move || poll_both(rt, alloc, readers, bytes),
        move || tick_both(rt, shared, ports, work),
    );
    lock.into_inner()
}

/// The same with a broadcast.
fn broadcast_and_poll<
    T: Threads + Wait + Abort + Sync,
    E: PublishingEnd + Send,
    R: ReadingEnd + Drop + Send,
>(
    rt: &T,
    alloc: Global,
    broadcast: Broadcast<E>,
    ports: (Port, Port),
    readers: (FeedReader<R>, FeedReader<R>),
    work: Work,
    bytes: &[u8],
) -> Broadcast<E> {
    tick_and_poll(rt, alloc, broadcast, ports, readers, work, bytes)
}

/// The two last of a list of two or more.
fn last_two<V>(rt: &impl Abort, list: &mut Vec<V>) -> (V, V) {
    let second = list.pop().expect(rt, "two");
    let first = list.pop().expect(rt, "two");
    (first, second)
}

/// The bytes of an input of so many packets.
pub fn input_bytes(rt: &impl Abort, alloc: Global, packets: u32) -> Vec<u8> {
    let mut bytes = Vec::new(alloc);
    for k in 0..packets {
        let packet = item(rt, u64::from(k)).packet;
        bytes.extend_from_slice(packet.bytes()).expect(rt, "memory");
    }
    bytes
}

/// The example plan with two inputs, alone.
fn schedule_of_two(rt: &impl Abort, alloc: Global, room: usize) -> Schedule {
    let plan = plan_with_rings(alloc, room.min(8), room, &[0, 0]).expect(rt, "a plan");
    Schedule::single(alloc, plan)
}

/// The bytes of the run in one thread, whose inputs have so many packets.
fn bytes_in_one_thread(rt: &impl Abort, alloc: Global, work: Work) -> Vec<u8> {
    let input = input_bytes(rt, alloc, work.packets);
    serial_bytes(
        rt,
        alloc,
        schedule_of_two(rt, alloc, work.room),
        input.as_slice(),
    )
}

/// A broadcast of two inputs, their ports, and three readers.
struct Seats {
    broadcast: Broadcast,
    ports: (Port, Port),
    both: (FeedReader, FeedReader),
    last: FeedReader,
}

fn open<T: Abort + Wait>(rt: &T, alloc: Global, room: usize) -> Seats {
    let schedule = schedule_of_two(rt, alloc, room);
    let (broadcast, mut ports, mut readers) = Broadcast::open(
        rt, alloc, schedule, 1_000_000, 3,
    ).expect(rt, "a broadcast");
    Seats {
        broadcast,
        ports: last_two(rt, &mut ports),
        both: last_two(rt, &mut readers),
        last: readers.pop().expect(rt, "three readers"),
    }
}

/// Two threads tick a broadcast of two inputs and two poll it, and a third reader reads at the end: each reads the bytes of the run
/// in one thread, which has so many slots.
fn all_read_the_serial_bytes<T: Threads + Wait + Abort + Sync>(
    rt: &T,
    alloc: Global,
    work: Work,
    slots: u64,
) {
    let bytes = bytes_in_one_thread(rt, alloc, work);
    let bytes = bytes.as_slice();
    let Seats {
        broadcast,
        ports,
        both,
        last,
    } = open(rt, alloc, work.room);
    let mut broadcast = broadcast_and_poll(rt, alloc, broadcast, ports, both, work, bytes);
    seals(rt, &mut broadcast, slots);
    polls(rt, alloc, last, bytes);
    broadcast.close(rt);
}

#[test]
fn readers_poll_while_two_threads_tick(rt: HostRuntime) {
    for room in [1, 64] {
        let work = Work {
            packets: 960,
            steps: None,
            room,
        };
        all_read_the_serial_bytes(&rt, rt.alloc(), work, 2_000);
    }
}

#[test]
fn readers_poll_while_100_000_slots_go_out(rt: HostRuntime) {
    let work = Work {
        packets: 48_000,
        steps: Some(MAX_STEPS),
        room: 64,
    };
    all_read_the_serial_bytes(&rt, rt.alloc(), work, 100_000);
}
