//! A station of one input, ticked by hand, with numbers worked out on paper: a slot takes 27,000 ticks, and so does a packet of
//! the input. Packet k has the time 27,000 k + 1,436, which is that of slot k, and slots 0 and 2 have tables.

mod asking;
mod opening;

use crate::tests::asking::{
    delayed, ends, is_open, offers, refuses, sends, shows, ticks, waits, waits_behind,
};
use crate::tests::opening::open;
use mux::{Sending, Totals};
use station::Settled;

/// The slot goes out before a later packet of the input was taken, since the full queue was noted.
#[test]
fn a_packet_whose_queue_is_full_is_held(rt: HostRuntime) {
    let (mut station, mut port) = open(&rt, rt.alloc(), 1, 4);
    offers(&rt, &mut port, 0);
    offers(&rt, &mut port, 1);
    offers(&rt, &mut port, 2);
    let port = port.finish();
    sends(&rt, &mut station, 0, 0);
    is_open(&rt, &station, true);
    let became = Settled {
        taken: 1,
        held: 1,
        left: 1,
    };
    assert_eq!(rt; station.settle(port), became);
}

#[test]
fn a_full_ring_has_room_once_its_packet_was_taken(rt: HostRuntime) {
    let (mut station, mut port) = open(&rt, rt.alloc(), 64, 1);
    offers(&rt, &mut port, 0);
    refuses(&rt, &mut port, 1, 28_436);
    ticks(&rt, &mut station, Sending::NotReady(0));
    offers(&rt, &mut port, 1);
    let sent = ticks(&rt, &mut station, Sending::Sent);
    shows(&rt, &sent, 0, 0);
    is_open(&rt, &station, true);
    let port = ends(&rt, port);
    let sent = ticks(&rt, &mut station, Sending::Sent);
    shows(&rt, &sent, 0x0200, 0);
    is_open(&rt, &station, false);
    let became = Settled {
        taken: 2,
        held: 0,
        left: 0,
    };
    assert_eq!(rt; station.settle(port), became);
}

/// Slot 1 has the time 28,436 and slot 3 has 82,436, so the delays say that the packets came at 1,436 and 28,436.
#[test]
fn packets_are_taken_with_their_times(rt: HostRuntime) {
    let (mut station, mut port) = open(&rt, rt.alloc(), 64, 4);
    offers(&rt, &mut port, 0);
    offers(&rt, &mut port, 1);
    let sent = ticks(&rt, &mut station, Sending::Sent);
    shows(&rt, &sent, 0, 0);
    let both = Totals {
        taken: 2,
        sent: 0,
        dropped: 0,
        queued: 2,
    };
    assert_eq!(rt; station.totals(0), both);
    ends(&rt, port);
    ticks(&rt, &mut station, Sending::Sent);
    delayed(&rt, &station, 27_000);
    ticks(&rt, &mut station, Sending::Sent);
    ticks(&rt, &mut station, Sending::Sent);
    delayed(&rt, &station, 54_000);
    ticks(&rt, &mut station, Sending::Done);
}

#[test]
fn a_packet_is_taken_where_no_slot_can_be_sent(rt: HostRuntime) {
    let (mut station, mut port) = open(&rt, rt.alloc(), 64, 4);
    offers(&rt, &mut port, 0);
    let sent = ticks(&rt, &mut station, Sending::NotReady(0));
    assert!(rt; sent.get().is_none());
    let waits = Totals {
        taken: 1,
        sent: 0,
        dropped: 0,
        queued: 1,
    };
    assert_eq!(rt; station.totals(0), waits);
}

/// The ring is empty before a packet comes, and again behind the one that was taken.
#[test]
fn steps_over_an_empty_ring_do_nothing(rt: HostRuntime) {
    let (mut station, mut port) = open(&rt, rt.alloc(), 64, 4);
    waits(&rt, rt.alloc(), &mut station);
    waits_behind(&rt, rt.alloc(), &mut station);
    offers(&rt, &mut port, 0);
    ticks(&rt, &mut station, Sending::NotReady(0));
    waits(&rt, rt.alloc(), &mut station);
    waits_behind(&rt, rt.alloc(), &mut station);
}
