//! Two threads that wait for each other.

use std::alloc::{AllocError, Global};
use std::sync::Wait;
use std::sync::atomic::{AtomicU64, Ordering};
use std::thread::Threads;
use std::time::Clock;
use std::{hint, thread};
use waking::{Sleeper, Waker};

/// How many turns each thread takes.
const TURNS: u64 = 20_000;

/// Waits for the turn with this number, as long as it takes.
fn wait_for<T: Wait + Clock>(rt: &T, turn: &AtomicU64, mine: u64, sleeper: &mut Sleeper) {
    for _ in rt.forever() {
        if turn.load(Ordering::SeqCst) == mine {
            break;
        }
        sleeper.wait(rt, 1, None);
    }
    sleeper.found();
}

/// Keeps the core for as many moments: some 40 nanoseconds each.
fn work(moments: u64) {
    for _moment in 0..moments {
        hint::spin_loop();
    }
}

/// Takes every second turn, and wakes the other thread behind each, and for nothing before it. A turn takes up to some 60 microseconds, so
/// that the other thread finds it at each of its steps: while it looks, tells or sleeps.
fn take_turns<T: Wait + Clock>(
    rt: &T,
    turn: &AtomicU64,
    first: u64,
    sleeper: Sleeper,
    other: Waker,
) -> u64 {
    let mut sleeper = sleeper;
    let mut mine = first;
    for _turn in 0..TURNS {
        wait_for(rt, turn, mine, &mut sleeper);
        work(mine % 64 * 24);
        other.wake();
        turn.store(mine.saturating_add(1), Ordering::SeqCst);
        other.wake();
        mine = mine.saturating_add(2);
    }
    mine
}

/// Two threads take turns, each of which sleeps until the other wakes it: the turns that each would take next.
pub fn take_all_turns<T: Threads + Wait + Clock + Sync>(
    rt: &T,
    alloc: Global,
) -> Result<(u64, u64), AllocError> {
    let (even, odd) = (Sleeper::new(alloc)?, Sleeper::new(alloc)?);
    let (wakes_even, wakes_odd) = (even.waker(1)?, odd.waker(1)?);
    let turn = AtomicU64::new(0);
    let shared = &turn;
    Ok(thread::join(
        rt,
        move || take_turns(rt, shared, 0, even, wakes_odd),
        move || take_turns(rt, shared, 1, odd, wakes_even),
    ))
}
