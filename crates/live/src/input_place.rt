//! How far an input of a run is.

use advice::reached;
use std::sync::atomic::{AtomicBool, AtomicU64, Ordering};

/// How far an input of a run is: its reader notes it, and others look at it.
#[derive(Drop)]
pub struct InputPlace {
    /// When its first byte comes, in ticks of 27 MHz.
    offset: u64,
    /// Its rate, in bits a second.
    rate: u64,
    /// How many bytes were read.
    bytes: AtomicU64,
    /// How many packets of the plan's streams were among them.
    taken: AtomicU64,
    /// The place of the last of these, in bytes.
    last: AtomicU64,
    /// How many of these went out.
    sent: AtomicU64,
    /// Whether it is being read.
    is_read: AtomicBool,
    /// Whether it has ended or failed.
    is_over: AtomicBool,
}

impl InputPlace {
    /// That of an input of which nothing was read, by its plan: when its first byte comes, in ticks of 27 MHz, and its rate, in bits a
    /// second.
    pub(crate) fn new(offset: u64, rate: u64) -> InputPlace {
        InputPlace {
            offset,
            rate,
            bytes: AtomicU64::new(0),
            taken: AtomicU64::new(0),
            last: AtomicU64::new(0),
            sent: AtomicU64::new(0),
            is_read: AtomicBool::new(false),
            is_over: AtomicBool::new(false),
        }
    }

    /// It is being read from now on.
    pub(crate) fn begin_read(&self) {
        self.is_read.store(true, Ordering::SeqCst);
    }

    /// So many bytes were read; it is over where there were none.
    pub(crate) fn end_read(&self, count: usize) {
        self.bytes.fetch_add(count as u64, Ordering::SeqCst);
        if count == 0 {
            self.is_over.store(true, Ordering::SeqCst);
        }
        self.is_read.store(false, Ordering::SeqCst);
    }

    /// So many packets of the plan's streams were found, the last of them at this place, in bytes.
    pub(crate) fn add_taken(&self, count: u64, last: u64) {
        self.last.store(last, Ordering::SeqCst);
        self.taken.fetch_add(count, Ordering::SeqCst);
    }

    /// A packet of it went out.
    pub(crate) fn add_sent(&self) {
        self.sent.fetch_add(1, Ordering::SeqCst);
    }

    /// How many bytes of it were read.
    pub fn bytes(&self) -> u64 {
        self.bytes.load(Ordering::SeqCst)
    }

    /// How many packets of the plan's streams were read and haven't gone out.
    pub fn queue(&self) -> u64 {
        let sent = self.sent.load(Ordering::SeqCst);
        self.taken.load(Ordering::SeqCst).saturating_sub(sent)
    }

    /// Whether it has ended, or a read of it failed.
    pub fn is_over(&self) -> bool {
        self.is_over.load(Ordering::SeqCst)
    }

    /// Whether a multiplex that is so far, in milliseconds, waits for it: a read of it is under way, and its last packet of the plan's
    /// streams comes no later; as it does from the start where there was none yet.
    pub fn is_waited_for(&self, time: u64) -> bool {
        if !self.is_read.load(Ordering::SeqCst) {
            return false;
        }
        let last = self.last.load(Ordering::SeqCst);
        self.taken.load(Ordering::SeqCst) == 0 || reached(self.offset, self.rate, last) <= time
    }
}
