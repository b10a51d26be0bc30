//! A thread that takes what a worker sends, beside the worker's.

ghost use Rattle.std.specs.Prelude.{◌≡◌, []};

use crate::tests::full_gate::FullGate;
use crate::tests::starting::run;
use port::{Arrival, Port, RingEnd};
use std::alloc::Global;
use std::process::Abort;
use std::sync::Wait;
use std::thread;
use std::thread::Threads;
use std::time::{Clock, Duration};

/// Takes what comes out of a ring up to the end mark, and sleeps before each look, for longer than a worker sleeps at once: how many
/// packets came, and how many of them weren't the next one, by their continuity counters.
fn take_all<T: Wait + Clock>(rt: &T, end: RingEnd) -> (u8, u8) {
    let mut end = end;
    let mut taken = 0_u8;
    let mut out_of_order = 0_u8;
    for _ in rt.forever() {
        thread::sleep(rt, Duration::from_micros(300));
        match end.next() {
            Some(Arrival::Packet(item)) => {
                if item.packet.counter() != taken % 16 {
                    out_of_order = out_of_order.saturating_add(1);
                }
                taken = taken.saturating_add(1);
            }
            Some(Arrival::End) => return (taken, out_of_order),
            None => {}
        }
    }
    unreachable!()
}

/// Runs a worker whose gate never says no: how often it found its ring full.
fn full_of<T: Wait + Clock + Abort>(rt: &T, alloc: Global, port: Port, count: u8) -> u32
    requires { port.sent ≡ [] }
{
    let (_, _, gate) = run(rt, alloc, port, FullGate::new(u32::MAX), count).expect(rt, "a run");
    gate.full
}

/// Runs a worker over so many packets beside a thread that takes them: how often it found its ring full, and what was taken.
pub fn run_beside<T: Threads + Wait + Clock + Abort + Sync>(
    rt: &T,
    alloc: Global,
    port: Port,
    end: RingEnd,
    count: u8,
) -> (u32, (u8, u8))
    requires { port.sent ≡ [] }
{
    thread::join(
        rt,
        move || full_of(rt, alloc, port, count),
        move || take_all(rt, end),
    )
}
