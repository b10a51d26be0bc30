//! Slots whose append or publish is refused: nothing is lost, and a later call publishes them.

ghost use Rattle.std.specs.Prelude.{◌≡◌};

use crate::tests::asking::{learns, publishes, reads, seals, sends, ticks, wants_memory};
use crate::tests::opening::{Seats, open};
use crate::tests::refusing_end::RefusingEnd;
use broadcast::Broadcast;
use feed::{FeedReader, Publisher, PublishingEnd};
use mux::Sending;
use std::alloc::Global;
use std::process::Abort;
use std::sync::Wait;

/// The same broadcast over an end that refuses the first so many appends and publishes.
fn refusing(broadcast: Broadcast, appends: u64, publishes: u64) -> Broadcast<RefusingEnd<Publisher>>
    ensures { result ≡ broadcast }
{
    broadcast.map_end(|end: Publisher| -> RefusingEnd<Publisher> {
        RefusingEnd {
            end,
            appends,
            publishes,
        }
    })
}

/// A slot goes out and stays behind; a publish that isn't refused publishes it, and then the reader reads it.
fn publishes_later<T: Abort + Wait, E: PublishingEnd>(
    rt: &T,
    alloc: Global,
    broadcast: &mut Broadcast<E>,
    first: &mut FeedReader,
)
    requires { first.old.known.feed ≡ broadcast.old.feed }
{
    ticks(rt, broadcast, Sending::Sent, 1);
    reads(rt, alloc, first, &[]);
    publishes(rt, broadcast);
    learns(rt, first, broadcast, 1, false);
    reads(rt, alloc, first, &[0x0000]);
}

/// The first slot of a broadcast goes out, over an end that refuses the first so many appends and publishes.
fn is_published_later<T: Abort + Wait>(rt: &T, alloc: Global, appends: u64, publishes: u64) {
    let (seats, _port) = open(rt, alloc, 2);
    let Seats {
        broadcast,
        mut first,
        second: _second,
    } = seats;
    let mut broadcast = refusing(broadcast, appends, publishes);
    publishes_later(rt, alloc, &mut broadcast, &mut first);
    broadcast.close(rt);
}

#[test]
fn a_slot_whose_publish_is_refused_is_published_later(rt: HostRuntime) {
    is_published_later(&rt, rt.alloc(), 0, 1);
}

/// The tick's append is refused, and once more its publish tries it.
#[test]
fn a_slot_whose_append_is_refused_is_published_later(rt: HostRuntime) {
    is_published_later(&rt, rt.alloc(), 2, 0);
}

/// Two slots go out and stay behind. The second waits outside the feed, so that the next tick answers `Memory`; it publishes both,
/// and the run goes on.
fn catches_up<T: Abort + Wait, E: PublishingEnd>(
    rt: &T,
    alloc: Global,
    broadcast: &mut Broadcast<E>,
    first: &mut FeedReader,
)
    requires { first.old.known.feed ≡ broadcast.old.feed }
{
    ticks(rt, broadcast, Sending::Sent, 1);
    ticks(rt, broadcast, Sending::Sent, 2);
    assert!(rt; broadcast.seal(rt).is_none());
    assert!(rt; !broadcast.is_sealed());
    wants_memory(rt, broadcast);
    sends(rt, broadcast, 1);
    first.learn(seals(rt, broadcast, 3));
    reads(rt, alloc, first, &[0x0000, 0x0200, 0x0100]);
}

#[test]
fn what_waits_for_memory_goes_first(rt: HostRuntime) {
    let (seats, _port) = open(&rt, rt.alloc(), 5);
    let Seats {
        broadcast,
        mut first,
        second: _second,
    } = seats;
    let mut broadcast = refusing(broadcast, 7, 0);
    catches_up(&rt, rt.alloc(), &mut broadcast, &mut first);
    broadcast.close(&rt);
}
