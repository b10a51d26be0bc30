//! How far a run is.

use crate::input_place::InputPlace;
use advice::reached;
use plan::Plan;
use std::alloc::{AllocError, Global};
use std::sync::atomic::{AtomicU64, Ordering};
use std::sync::{Condvar, Mutex, Wait};
use std::time::{Clock, Duration};

/// The bytes of a slot.
const SLOT: u64 = 188;

/// How far a run is: its readers and its writer note it, and others look at it.
#[derive(Drop)]
pub struct RunBoard {
    /// The rate of the multiplex, in bits a second.
    rate: u64,
    /// Whether packets and faults are counted, and not bytes alone.
    is_counted: bool,
    /// How many bytes were written.
    written: AtomicU64,
    /// How many faults the output has.
    faults: AtomicU64,
    inputs: Vec<InputPlace>,
    is_over: Mutex<bool>,
    ended: Condvar,
}

impl RunBoard {
    /// That of a run of this plan, which hasn't begun. Whether its packets and faults are counted is `is_counted`.
    pub fn new(alloc: Global, plan: &Plan, is_counted: bool) -> Result<RunBoard, AllocError> {
        let mut inputs = Vec::new(alloc);
        for input in plan.inputs() {
            inputs.push(InputPlace::new(input.offset, input.rate))?;
        }
        Ok(RunBoard {
            rate: plan.rate(),
            is_counted,
            written: AtomicU64::new(0),
            faults: AtomicU64::new(0),
            inputs,
            is_over: Mutex::new(false),
            ended: Condvar::new(),
        })
    }

    /// Whether packets and faults are counted.
    pub fn is_counted(&self) -> bool {
        self.is_counted
    }

    /// The inputs, in the order of the plan.
    pub fn inputs(&self) -> &[InputPlace] {
        &self.inputs
    }

    /// So many bytes were written.
    pub(crate) fn add_written(&self, count: usize) {
        self.written.fetch_add(count as u64, Ordering::SeqCst);
    }

    /// So many faults of the output were told.
    pub(crate) fn add_faults(&self, count: usize) {
        self.faults.fetch_add(count as u64, Ordering::SeqCst);
    }

    /// How many slots were written.
    pub fn slots(&self) -> u64 {
        self.written.load(Ordering::SeqCst) / SLOT
    }

    /// How many faults the output has, where they are counted.
    pub fn faults(&self) -> u64 {
        self.faults.load(Ordering::SeqCst)
    }

    /// How far the multiplex is, in milliseconds.
    pub fn time(&self) -> u64 {
        reached(0, self.rate, self.slots().saturating_mul(SLOT))
    }

    /// The run has ended.
    pub(crate) fn end<R: Wait>(&self, rt: &R) {
        let mut is_over = self.is_over.lock(rt);
        *is_over = true;
        drop(is_over);
        self.ended.notify_all();
    }

    /// Waits so long, but not past the run's end, and answers whether it has ended.
    pub(crate) fn wait<R: Wait + Clock>(&self, rt: &R, time: Duration) -> bool {
        let over = self.is_over.lock(rt);
        let (over, _) = self
            .ended
            .wait_timeout_while(rt, over, time, |is_over| !*is_over);
        *over
    }
}
