//! What each slot moves on: the clock, and the transport buffers of the streams (ISO/IEC 13818-1, 2.4.2).

ghost use Rattle.std.specs.Prelude.{◌≡◌, ◌<◌, ◌≤◌, ◌*◌, ◌+◌, map, length, All, IfOk, Some, None};
ghost use Rattle.std.specs.List.{slice_get};
ghost use Rattle.tspkt.specs.Stamps.{time_of};
ghost use Rattle.buffers.specs.BucketValue.{BucketValue, HasRoom};
ghost use Rattle.mux.specs.Buckets.{empty_bucket, MovedOn};
ghost use Rattle.mux.specs.KeptBucket.{fresh_bucket};
ghost use Rattle.mux.specs.SlotClock.{clock_at, advanced};

use crate::kept_bucket::KeptBucket;
use crate::mux::MAX_SLOTS;
use crate::slot_clock::SlotClock;
use buffers::Bucket;
use request::{MAX_LEAK, MAX_RATE, MIN_RATE, Stream};
use std::alloc::{AllocError, Global};
use std::marker::Model;

/// The clock, and a transport buffer a stream. A slot moves on only the buffer that it carries a packet of, if any.
#[derive(Drop)]
pub(crate) struct Progress {
    clock: SlotClock,
    kept: Vec<KeptBucket>,
}

impl Model for Progress {
    ghost use Rattle.std.specs.Prelude.{◌≤◌, map, All};
    ghost use Rattle.mux.specs.KeptBucket.{ProgressValue, bucket_at};

    ghost Value = { ProgressValue };

    ghost view = { λ p. record { clock = p.clock; buckets = map (bucket_at p.clock.slot) p.kept.items } };

    ghost invariant = { λ p. All (λ k. k.slot ≤ p.clock.slot) p.kept.items };
}

/// An empty buffer a stream, in a multiplex of this rate, before slot 0.
fn new_buckets(alloc: Global, rate: u64, streams: &[Stream]) -> Result<Vec<KeptBucket>, AllocError>
    requires from { MIN_RATE ≤ rate }
    requires to { rate ≤ MAX_RATE }
    requires leaks { All (λ st. (1 ≤ st.leak) × (st.leak ≤ MAX_LEAK)) streams.now }
    ensures { IfOk result (λ v. v.items ≡ map (fresh_bucket rate) streams.now) }
{
    let mut buckets = Vec::new(alloc);
    for stream in streams {
        buckets.push(KeptBucket {
            bucket: Bucket::new(stream.leak, rate),
            slot: 0,
        })?;
    }
    Ok(buckets)
}

impl Progress {
    /// Before slot 0 of a multiplex of this rate: all buffers are empty.
    pub fn new(alloc: Global, rate: u64, streams: &[Stream]) -> Result<Progress, AllocError>
        requires from { MIN_RATE ≤ rate }
        requires to { rate ≤ MAX_RATE }
        requires leaks { All (λ st. (1 ≤ st.leak) × (st.leak ≤ MAX_LEAK)) streams.now }
        ensures clock { IfOk result (λ p. p.clock ≡ clock_at rate 0) }
        ensures buckets { IfOk result (λ p. p.buckets ≡ map (empty_bucket rate) streams.now) }
    {
        Ok(Progress {
            clock: SlotClock::new(rate),
            kept: new_buckets(alloc, rate, streams)?,
        })
    }

    /// The number of the next slot.
    pub fn slot(&self) -> u64
        ensures { result ≡ self.now.clock.slot }
    {
        self.clock.slot()
    }

    /// When the next slot goes out, in ticks of 27 MHz.
    pub fn time(&self) -> u64
        ensures { result ≡ time_of (188 * self.now.clock.slot + 10) self.now.clock.rate }
    {
        self.clock.time()
    }

    /// The buffer of the stream of this index.
    pub fn bucket(&self, index: usize) -> Bucket
        requires { index < length self.now.buckets }
        ensures { slice_get self.now.buckets index ≡ Some result }
    {
        self.kept[index].at(self.clock.slot())
    }

    /// The next slot carries a packet of no stream.
    pub fn pass(&mut self)
        requires { self.old.clock.slot < MAX_SLOTS }
        ensures clock { self.new.clock ≡ advanced self.old.clock }
        ensures buckets { MovedOn None self.old.buckets self.new.buckets }
    {
        self.clock.advance();
    }

    /// The next slot carries a packet of the stream of this index, whose buffer is this one and has room for it.
    pub fn send(&mut self, index: usize, bucket: Bucket)
        requires within { self.old.clock.slot < MAX_SLOTS }
        requires bucket { slice_get self.old.buckets index ≡ Some bucket }
        requires room { HasRoom bucket }
        ensures clock { self.new.clock ≡ advanced self.old.clock }
        ensures buckets { MovedOn (Some index) self.old.buckets self.new.buckets }
    {
        let slot = self.clock.slot();
        self.kept[index].send(slot, bucket);
        self.clock.advance();
    }
}
