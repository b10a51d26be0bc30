//! What the thread that ticks tells the other threads of a run, and how it waits for them.

ghost use Rattle.std.specs.Prelude.{◌<◌};

use crate::output_signals::OutputSignals;
use mux::Sending;
use std::alloc::{AllocError, Global};
use std::sync::atomic::{AtomicBool, Ordering};
use std::sync::{Arc, Wait};
use std::time::{Clock, Duration};
use waking::{Rest, Sleeper, Waker};
use worker::{PLACE, Wakes};

/// The change that the run is over.
const OVER: u64 = 1;
/// The change that an empty block came back.
const BLOCK: u64 = 2;
/// The change that something came into the ring of the first input.
const ARRIVAL: u64 = 4;

/// Where half of what all rings hold is at least so many packets, a worker at a full ring naps before it tells that it waits: the station
/// takes some 100 microseconds for as many, twice as long as a nap.
const MANY_PACKETS: usize = 512;

/// How long the thread that ticks sleeps at most, in microseconds, before it has woken all workers.
const FIRST_SLEEP: u64 = 100;

/// What the thread that ticks tells the other threads of a run, and how it waits for them: whether the run is over, what it is woken by,
/// and what wakes the inputs' workers and the output's.
#[derive(Drop)]
pub struct Signals {
    is_over: Arc<AtomicBool, Global>,
    sleeper: Sleeper,
    workers: Vec<Waker>,
    output: Waker,
    /// The change that is waited for.
    wanted: u64,
    /// About how many packets were taken since all workers were woken last.
    taken: usize,
    /// Half of what the rings hold.
    half: usize,
    /// Whether the last wait was a sleep, and nothing was found since.
    has_slept: bool,
}

/// The change that something came into the ring of the input with this number; a plan has 8 inputs at most.
fn arrival(input: usize) -> u64 {
    ARRIVAL << (input % 8)
}

impl Signals {
    /// Those of a run with so many inputs, each of which has a ring of so many packets, and those of its output's worker. `Err` is want
    /// of memory.
    pub fn open(
        alloc: Global,
        inputs: usize,
        ring: usize,
    ) -> Result<(Signals, OutputSignals), AllocError> {
        let is_over = Arc::new(alloc, AtomicBool::new(false))?;
        let sleeper = Sleeper::new(alloc)?;
        let told = Arc::try_clone(&is_over)?;
        let (block, over) = (sleeper.waker(BLOCK)?, sleeper.waker(OVER)?);
        let output = OutputSignals::new(alloc, told, block, over)?;
        let signals = Signals {
            is_over,
            output: output.waker()?,
            sleeper,
            workers: Vec::with_capacity(alloc, inputs)?,
            wanted: ARRIVAL,
            taken: 0,
            half: inputs.saturating_mul(ring) / 2,
            has_slept: false,
        };
        Ok((signals, output))
    }

    /// What says whether the run is over.
    pub fn over(&self) -> Result<Arc<AtomicBool, Global>, AllocError> {
        Arc::try_clone(&self.is_over)
    }

    /// What the next input's worker is woken by, and whom it wakes. `Err` is want of memory.
    pub fn worker(&mut self, alloc: Global) -> Result<Wakes, AllocError> {
        let sleeper = if self.half >= MANY_PACKETS {
            Sleeper::napping(alloc)?
        } else {
            Sleeper::new(alloc)?
        };
        let taker = self.sleeper.waker(arrival(self.workers.len()))?;
        self.workers.push(sleeper.waker(PLACE)?)?;
        Ok(Wakes { sleeper, taker })
    }

    /// Whether the run is over.
    pub fn is_over(&self) -> bool {
        self.is_over.load(Ordering::SeqCst)
    }

    /// The run is over: no worker waits for a place any longer.
    pub fn end(&self) {
        self.is_over.store(true, Ordering::SeqCst);
        self.wake_workers();
    }

    /// Wakes the workers that wait for a place.
    fn wake_workers(&self) {
        for worker in &self.workers {
            worker.wake();
        }
    }

    /// A turn of at most so many steps is over, which sent so many slots. It wakes the worker whose ring was found empty, and all workers once
    /// about half of what the rings hold was taken since they were woken last.
    pub fn turned(&mut self, answer: &Sending, most: usize, sent: usize) {
        let taken = match answer {
            Sending::NotReady(input) => {
                self.want(*input);
                sent
            }
            _ => most.saturating_sub(sent),
        };
        self.taken = self.taken.saturating_add(taken);
        if self.taken >= self.half {
            self.taken = 0;
            self.wake_workers();
        }
    }

    /// This input's ring was found empty: its worker is woken, and what is waited for comes from there.
    fn want(&mut self, input: usize) {
        self.wanted = arrival(input);
        if let Some(worker) = self.workers.get(input) {
            worker.wake();
        }
    }

    /// What was waited for came.
    pub fn came(&mut self) {
        self.has_slept = false;
        self.sleeper.found();
    }

    /// Waits for what comes through the ring that was found empty, and with a block in hand also for an empty block.
    pub fn waits_for_packets<T: Wait + Clock>(&mut self, rt: &T, is_in_hand: bool) {
        let others = if is_in_hand { OVER | BLOCK } else { OVER };
        self.wait(rt, self.wanted.saturating_add(others));
    }

    /// Waits for an empty block.
    pub fn waits_for_block<T: Wait + Clock>(&mut self, rt: &T) {
        self.wait(rt, OVER | BLOCK);
    }

    /// Waits for one of these changes. A worker may wait beside places that it wasn't told of, and what is waited for may come from whoever
    /// that worker keeps waiting. So the first sleep is short, and before each that follows it all workers are woken.
    fn wait<T: Wait + Clock>(&mut self, rt: &T, changes: u64)
        requires { 0 < changes }
    {
        let limit = if self.has_slept {
            self.wake_workers();
            None
        } else {
            Some(Duration::from_micros(FIRST_SLEEP))
        };
        let rest = self.sleeper.wait(rt, changes, limit);
        self.has_slept = matches!(rest, Rest::Sleep);
    }

    /// A block was sent, or the end mark.
    pub fn sent(&mut self) {
        self.has_slept = false;
        self.sleeper.found();
        self.output.wake();
    }
}
