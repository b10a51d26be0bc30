//! What the output's worker tells the thread that ticks, and how it waits for it.

ghost use Rattle.std.specs.Prelude.{◌≡◌, true};

use std::alloc::{AllocError, Global};
use std::sync::atomic::{AtomicBool, Ordering};
use std::sync::{Arc, Wait};
use std::time::Clock;
use waking::{Rest, Sleeper, Waker};

/// The change that a block was sent, or the end mark.
const SENT: u64 = 1;

/// What the output's worker tells the thread that ticks, and how it waits for it: whether the run is over, what it is woken by, and what
/// wakes the thread that ticks.
#[derive(Drop)]
pub struct OutputSignals {
    is_over: Arc<AtomicBool, Global>,
    sleeper: Sleeper,
    /// Wakes the thread that ticks behind a block that went back.
    block: Waker,
    /// Wakes it where the run is over.
    over: Waker,
}

impl OutputSignals {
    /// Those of an output's worker. By `is_over` it says that the run is over, and `over` wakes the thread that ticks then; `block` wakes it
    /// behind each block that went back. `Err` is want of memory.
    pub(crate) fn new(
        alloc: Global,
        is_over: Arc<AtomicBool, Global>,
        block: Waker,
        over: Waker,
    ) -> Result<OutputSignals, AllocError> {
        Ok(OutputSignals {
            is_over,
            sleeper: Sleeper::napping(alloc)?,
            block,
            over,
        })
    }

    /// What wakes the worker behind a block. `Err` is want of memory.
    pub(crate) fn waker(&self) -> Result<Waker, AllocError> {
        self.sleeper.waker(SENT)
    }

    /// The run is over.
    pub fn end(&self) {
        self.is_over.store(true, Ordering::SeqCst);
        self.over.wake();
    }

    /// A block came. The one before it, if any, went back empty.
    pub fn came(&mut self) {
        self.sleeper.found();
        self.block.wake();
    }

    /// Waits for a block. The one before it, if any, went back empty. It answers whether the worker has napped or slept since a block came.
    pub fn waits<T: Wait + Clock>(&mut self, rt: &T, has_rested: bool) -> bool
        ensures { has_rested ≡ true → result ≡ true }
    {
        self.block.wake();
        let rest = self.sleeper.wait(rt, SENT, None);
        has_rested || !matches!(rest, Rest::Pause)
    }
}
