//! A transport buffer that is moved on where it is looked at.

ghost use Rattle.std.specs.Prelude.{◌≡◌, ◌<◌, ◌≤◌};
ghost use Rattle.buffers.specs.BucketValue.{HasRoom};
ghost use Rattle.mux.specs.KeptBucket.{bucket_at, sent_at};

use crate::mux::MAX_SLOTS;
use buffers::Bucket;

/// A stream's transport buffer as it was before a slot. None of the slots from that on carried a packet of the stream.
#[derive(Drop)]
pub(crate) struct KeptBucket {
    pub bucket: Bucket,
    pub slot: u64,
}

impl KeptBucket {
    /// The buffer before this slot.
    pub fn at(&self, slot: u64) -> Bucket
        requires { self.now.slot ≤ slot }
        ensures { result ≡ bucket_at slot self.now }
    {
        self.bucket.after(slot - self.slot)
    }

    /// This slot carries a packet of the stream, which fits the buffer as it is before it.
    pub fn send(&mut self, slot: u64, bucket: Bucket)
        requires order { self.old.slot ≤ slot }
        requires within { slot < MAX_SLOTS }
        requires bucket { bucket ≡ bucket_at slot self.old }
        requires room { HasRoom bucket }
        ensures { self.new ≡ sent_at slot self.old }
    {
        let mut bucket = bucket;
        bucket.send();
        self.bucket = bucket;
        self.slot = slot + 1;
    }
}
