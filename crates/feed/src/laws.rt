//! What may go to other threads.

ghost use Rattle.std.specs.Prelude.{◌≡◌};

use crate::feed_reader::FeedReader;
use crate::feed_writer::FeedWriter;
use crate::publisher::Publisher;
use crate::publishing_end::PublishingEnd;
use std::sync::Mutex;

/// What holds a writer, and a number of its own. It is generic in the writer's end, as all that holds a writer has to be: of a
/// struct that names one end no proof is found that it may be sent.
pub struct Holder<E: PublishingEnd> {
    pub feed: FeedWriter<E>,
    pub number: u64,
}

fn sent<T: Send>(value: T) -> T
    ensures { result ≡ value }
{
    value
}

fn share<T: Sync>(_value: &T) {}

/// A writer may be sent to another thread.
pub fn send_writer(writer: FeedWriter) -> FeedWriter
    ensures { result ≡ writer }
{
    sent(writer)
}

/// A reader may be sent to another thread.
pub fn send_reader(reader: FeedReader) -> FeedReader
    ensures { result ≡ reader }
{
    sent(reader)
}

/// A lock round what holds a writer may be shared by threads.
pub fn share_lock(lock: &Mutex<Holder<Publisher>>) {
    share(lock)
}
