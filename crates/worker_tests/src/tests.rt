//! A worker at a full ring, beside a gate that holds the ring's other end: each packet and the end mark wait for a place. And one
//! whose gate says no before a read.

mod emptying_gate;
mod full_gate;
mod given_bytes;
mod null_packets;
mod read_gate;
mod starting;
mod taking_thread;
mod turns;

use crate::tests::emptying_gate::EmptyingGate;
use crate::tests::full_gate::FullGate;
use crate::tests::null_packets::NullPackets;
use crate::tests::read_gate::ReadGate;
use crate::tests::starting::{asks_in_time, ring, run, run_over, run_woken};
use crate::tests::taking_thread::run_beside;
use crate::tests::turns::take_all_turns;
use anyhow::Result;
use port::Arrival;
use reading::Stop;
use std::sync::Arc;
use std::sync::atomic::{AtomicU64, Ordering};
use std::test::Fail;

/// The ring has one place. Packet 0 finds it free, and each of the 199 others and the end mark find it full so many times: once, twice
/// or three times.
#[test]
fn each_packet_and_the_mark_wait_for_the_only_place(rt: HostRuntime) -> Result<(), Fail> {
    for rounds in 1..4 {
        let (port, end) = ring(rt.alloc(), 1)?;
        let gate = EmptyingGate::new(end, rounds);
        let (report, finished, mut gate) = run(&rt, rt.alloc(), port, gate, 200)?;
        assert_eq!(rt; report.framed, 200);
        assert_eq!(rt; report.stopped, None);
        assert!(rt; finished.is_ended());
        assert_eq!(rt; (gate.taken, gate.out_of_order), (200, 0));
        assert_eq!(rt; gate.full, 200 * rounds);
        assert!(rt; matches!(gate.end.next(), Some(Arrival::End)));
    }
    Ok(())
}

/// All five packets find a place, and the end mark gets that of the first one.
#[test]
fn the_mark_waits_for_a_place(rt: HostRuntime) -> Result<(), Fail> {
    for _ in 0..200 {
        let (port, end) = ring(rt.alloc(), 5)?;
        let (_, finished, mut gate) = run(&rt, rt.alloc(), port, EmptyingGate::new(end, 1), 5)?;
        assert!(rt; finished.is_ended());
        assert_eq!(rt; (gate.taken, gate.full), (1, 1));
        for _ in 0..4 {
            assert!(rt; matches!(gate.end.next(), Some(Arrival::Packet(_))));
        }
        assert!(rt; matches!(gate.end.next(), Some(Arrival::End)));
    }
    Ok(())
}

/// The gate lets the worker wait as long as it likes: another thread makes room while the worker sleeps.
#[test]
fn another_thread_makes_room(rt: HostRuntime) -> Result<(), Fail> {
    for _ in 0..5 {
        let (port, end) = ring(rt.alloc(), 1)?;
        let (full, taken) = run_beside(&rt, rt.alloc(), port, end, 60);
        assert!(rt; 0 < full);
        assert_eq!(rt; taken, (60, 0));
    }
    Ok(())
}

/// The gate says no at the full ring: the packet that waits isn't sent, nor is the end mark.
#[test]
fn a_gate_stops_a_packet_that_waits(rt: HostRuntime) -> Result<(), Fail> {
    for most in 0..4 {
        for _ in 0..10 {
            let (port, mut end) = ring(rt.alloc(), 1)?;
            let (report, finished, gate) = run(&rt, rt.alloc(), port, FullGate::new(most), 5)?;
            assert_eq!(rt; report.stopped, Some(Stop::Gate));
            assert!(rt; !finished.is_ended());
            assert_eq!(rt; (gate.full, gate.stops), (most + 1, 1));
            assert!(rt; matches!(end.next(), Some(Arrival::Packet(_))));
            assert!(rt; end.next().is_none());
        }
    }
    Ok(())
}

/// Nobody wakes a worker that waits to be woken. It asks its gate all the same, more often than it looks before it sleeps, and ends at the
/// first no.
#[test]
fn a_worker_that_nobody_wakes_asks_its_gate(rt: HostRuntime) -> Result<(), Fail> {
    let (port, mut end) = ring(rt.alloc(), 1)?;
    let (report, finished, gate) = run_woken(&rt, rt.alloc(), port, FullGate::new(70), 5)?;
    assert_eq!(rt; report.stopped, Some(Stop::Gate));
    assert!(rt; !finished.is_ended());
    assert_eq!(rt; (gate.full, gate.stops), (71, 1));
    assert!(rt; matches!(end.next(), Some(Arrival::Packet(_))));
    assert!(rt; end.next().is_none());
    Ok(())
}

/// It asks its gate at least every ten milliseconds.
#[test]
fn a_worker_that_sleeps_asks_its_gate_in_time(rt: HostRuntime) -> Result<(), Fail> {
    assert!(rt; asks_in_time(&rt, rt.alloc())?);
    Ok(())
}

/// Two threads wait for each other 20,000 times, each until the other wakes it: where a wake-up was lost they never ended.
#[test]
fn threads_that_wait_for_each_other_are_woken(rt: HostRuntime) -> Result<(), Fail> {
    assert_eq!(rt; take_all_turns(&rt, rt.alloc())?, (40_000, 40_001));
    Ok(())
}

/// All five packets find a place, and the end mark none.
#[test]
fn a_gate_stops_an_end_mark_that_waits(rt: HostRuntime) -> Result<(), Fail> {
    for most in 0..4 {
        for _ in 0..10 {
            let (port, mut end) = ring(rt.alloc(), 5)?;
            let (report, finished, gate) = run(&rt, rt.alloc(), port, FullGate::new(most), 5)?;
            assert_eq!(rt; report.stopped, Some(Stop::Gate));
            assert!(rt; !finished.is_ended());
            assert_eq!(rt; (gate.full, gate.stops), (most + 1, 1));
            for _ in 0..5 {
                assert!(rt; matches!(end.next(), Some(Arrival::Packet(_))));
            }
            assert!(rt; end.next().is_none());
        }
    }
    Ok(())
}

/// The gate says no before the third read. The plan names no packet of the first two, so it was asked nowhere else.
#[test]
fn a_gate_stops_a_read(rt: HostRuntime) -> Result<(), Fail> {
    let (port, mut end) = ring(rt.alloc(), 5)?;
    let reads = Arc::new(rt.alloc(), AtomicU64::new(0))?;
    let reader = NullPackets {
        reads: Arc::try_clone(&reads)?,
    };
    let (report, finished, gate) = run_over(&rt, rt.alloc(), port, ReadGate::new(2), reader)?;
    assert_eq!(rt; report.stopped, Some(Stop::Gate));
    assert_eq!(rt; reads.load(Ordering::SeqCst), 2);
    assert_eq!(rt; (report.framed, report.unmapped), (10, 10));
    assert!(rt; !finished.is_ended());
    assert_eq!(rt; (gate.asked, gate.stops), (3, 1));
    assert!(rt; end.next().is_none());
    Ok(())
}

/// Each of the eleven reads to the end is asked for.
#[test]
fn a_gate_is_asked_before_each_read(rt: HostRuntime) -> Result<(), Fail> {
    let (port, _end) = ring(rt.alloc(), 5)?;
    let reads = Arc::new(rt.alloc(), AtomicU64::new(0))?;
    let reader = NullPackets {
        reads: Arc::try_clone(&reads)?,
    };
    let (report, finished, gate) = run_over(
        &rt,
        rt.alloc(),
        port,
        ReadGate::new(u32::MAX),
        reader,
    )?;
    assert_eq!(rt; report.stopped, None);
    assert_eq!(rt; reads.load(Ordering::SeqCst), 11);
    assert!(rt; finished.is_ended());
    assert_eq!(rt; (gate.asked, gate.stops), (11, 0));
    Ok(())
}
