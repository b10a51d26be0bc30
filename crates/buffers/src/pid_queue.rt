//! The packets of a PID that wait.

ghost use Rattle.std.specs.Prelude.{◌≡◌, ◌<◌, ◌≤◌, ◌↔◌, [], false, length, slice_get, option_copied, IsTrue, IsOk, IfOk, OnOk, IfErr, IfSome, IfNone, Some};
ghost use Rattle.tspkt.specs.declared.stamped.Stamped.{Stamped};
ghost use Rattle.buffers.specs.QueueValue.{QueueValue, with_last, without_first, first_stamp};

use circular_buffer::HeapCircularBuffer;
use std::alloc::{AllocError, Global};
use std::marker::Model;
use tspkt::Stamped;

/// A queue that holds at most so many packets. Its room is made with it. The time of its head lies beside the packets, so
/// that whether the head is due is known without them.
#[derive(Drop)]
pub struct PidQueue {
    waiting: HeapCircularBuffer<Stamped>,
    /// The time of the head, in ticks of 27 MHz; `u64::MAX` where nothing waits.
    next: u64,
}

impl Model for PidQueue {
    ghost use Rattle.std.specs.Prelude.{◌≤◌, ◌≡◌, length};
    ghost use Rattle.buffers.specs.QueueValue.{QueueValue, first_stamp};

    ghost Value = { QueueValue };

    ghost view = { λ q. record { items = q.waiting.items; capacity = q.waiting.capacity } };

    ghost invariant = { λ q. (length q.waiting.items ≤ q.waiting.capacity)
        × (q.next ≡ first_stamp q.waiting.items) };
}

impl PidQueue {
    /// An empty queue of a capacity of 1 to 1,024 packets.
    pub fn with_capacity(alloc: Global, capacity: usize) -> Result<PidQueue, AllocError>
        requires from { 1 ≤ capacity }
        requires to { capacity ≤ 1024 }
        ensures { IfOk result (λ q. q ≡ record { items = []; capacity = capacity }) }
    {
        let waiting = HeapCircularBuffer::with_capacity(alloc, capacity)?;
        Ok(PidQueue {
            waiting,
            next: u64::MAX,
        })
    }

    /// How many packets wait.
    pub fn len(&self) -> usize
        ensures value { result ≡ length self.now.items }
        ensures within { result ≤ self.now.capacity }
    {
        self.waiting.len()
    }

    /// Whether nothing waits.
    pub fn is_empty(&self) -> bool
        ensures { IsTrue result ↔ (self.now.items ≡ []) }
    {
        self.waiting.is_empty()
    }

    /// Whether no more may wait.
    pub fn is_full(&self) -> bool
        ensures full { IsTrue result ↔ (length self.now.items ≡ self.now.capacity) }
        ensures room { result ≡ false → length self.now.items < self.now.capacity }
    {
        self.waiting.is_full()
    }

    /// The packet that waits longest.
    pub fn head(&self) -> Option<&Stamped>
        ensures { option_copied result ≡ slice_get self.now.items 0 }
    {
        self.waiting.front()
    }

    /// The time of the packet that waits longest, in ticks of 27 MHz; `u64::MAX` where nothing waits, and where a packet of that time
    /// does.
    pub fn head_time(&self) -> u64
        ensures { result ≡ first_stamp self.now.items }
    {
        self.next
    }

    /// The time of the packet that waits longest, if that isn't after this time; in ticks of 27 MHz.
    pub fn first_due(&self, now: u64) -> Option<u64>
        ensures some { IfSome result (λ stamp. (item : Stamped) × (slice_get self.now.items 0 ≡ Some item)
            × (item.stamp ≡ stamp) × (stamp ≤ now)) }
        ensures none { IfNone result ((item : Stamped)
            → slice_get self.now.items 0 ≡ Some item → now < item.stamp) }
    {
        // A head may have the time `u64::MAX` too.
        if self.next <= now && (self.next < u64::MAX || !self.waiting.is_empty()) {
            Some(self.next)
        } else {
            None
        }
    }

    /// Puts a packet behind the others. A full queue hands it back, and stays as it was.
    pub fn offer(&mut self, item: Stamped) -> Result<(), Stamped>
        ensures accepted { IsOk result ↔ (length self.old.items < self.old.capacity) }
        ensures ok { OnOk result (self.new ≡ with_last self.old item) }
        ensures err { IfErr result (λ refused. (refused ≡ item) × (self.new ≡ self.old)) }
    {
        let is_first = self.waiting.is_empty();
        let stamp = item.stamp;
        self.waiting.try_push_back(item)?;
        if is_first {
            self.next = stamp;
        }
        Ok(())
    }

    /// Removes the packet that waits longest; none where nothing waits.
    pub fn take(&mut self) -> Option<Stamped>
        ensures first { result ≡ slice_get self.old.items 0 }
        ensures rest { self.new ≡ without_first self.old }
    {
        // The only one leaves at the back: its place is the next one's then, and is still in the cache.
        let first = if self.len() == 1 {
            self.waiting.pop_back()
        } else {
            self.waiting.pop_front()
        };
        self.next = match self.waiting.front() {
            None => u64::MAX,
            Some(item) => item.stamp,
        };
        first
    }
}
