//! A broadcast of one input, and the port of its input.

ghost use Rattle.std.specs.Prelude.{◌≡◌, [], length};
ghost use Rattle.schedule.specs.Streams.{all_streams};
ghost use Rattle.mux.specs.Lawful.{input_count};

use crate::tests::asking::offers;
use broadcast::Broadcast;
use example::plan_with_rings;
use feed::FeedReader;
use port::Port;
use schedule::Schedule;
use std::alloc::Global;
use std::process::Abort;
use std::sync::Wait;

/// A broadcast and its two readers.
pub struct Seats {
    pub broadcast: Broadcast,
    pub first: FeedReader,
    pub second: FeedReader,
}

/// The example plan with one input and one stream, whose queue and ring have room for 8 packets.
fn schedule_of(rt: &impl Abort, alloc: Global) -> Schedule
    ensures inputs { length result.first.request.inputs ≡ 1 }
    ensures streams { length (all_streams result) ≡ 1 }
{
    let plan = plan_with_rings(alloc, 8, 8, &[0]).expect(rt, "a plan");
    let schedule = Schedule::single(alloc, plan);
    assert!(rt; schedule.plan(0).inputs().len() == 1);
    assert!(rt; schedule.streams().len() == 1);
    schedule
}

/// A broadcast of that plan, its readers, which read nothing, and the port of its input, with the first so many packets in the ring.
pub fn open<T: Abort + Wait>(rt: &T, alloc: Global, packets: u8) -> (Seats, Port)
    ensures first { result.0.first.known.feed ≡ result.0.broadcast.feed }
    ensures second { result.0.second.known.feed ≡ result.0.broadcast.feed }
    ensures unread { result.0.first.read ≡ [] }
    ensures inputs { input_count result.0.broadcast.station.history.run.schedule ≡ 1 }
    ensures streams { length (all_streams result.0.broadcast.station.history.run.schedule) ≡ 1 }
{
    let schedule = schedule_of(rt, alloc);
    let (broadcast, mut ports, mut readers) = Broadcast::open(rt, alloc, schedule, 1_000, 2).expect(
        rt,
        "a broadcast",
    );
    let mut port = ports.pop().expect(rt, "a port");
    offers(rt, &mut port, packets);
    let second = readers.pop().expect(rt, "two readers");
    let first = readers.pop().expect(rt, "two readers");
    let seats = Seats {
        broadcast,
        first,
        second,
    };
    (seats, port)
}

/// The broadcast is closed.
pub fn close<T: Abort + Wait>(rt: &T, seats: Seats) {
    let Seats {
        broadcast,
        first: _first,
        second: _second,
    } = seats;
    broadcast.close(rt);
}
