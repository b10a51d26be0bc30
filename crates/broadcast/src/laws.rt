//! What may go to other threads, and what they may share.

ghost use Rattle.std.specs.Prelude.{◌≡◌};

use crate::broadcast::Broadcast;
use feed::PublishingEnd;
use std::sync::Mutex;

fn sent<T: Send>(value: T) -> T
    ensures { result ≡ value }
{
    value
}

fn share<T: Sync>(_value: &T) {}

/// A broadcast may be sent to another thread where its end may.
pub fn send_broadcast<E: PublishingEnd + Send>(broadcast: Broadcast<E>) -> Broadcast<E>
    ensures { result ≡ broadcast }
{
    sent(broadcast)
}

/// A lock round a broadcast may be shared by threads where its end may be sent to them.
pub fn share_lock<E: PublishingEnd + Send>(lock: &Mutex<Broadcast<E>>) {
    share(lock)
}

/// So a lock round a broadcast as it is opened may be shared.
pub fn share_opened(lock: &Mutex<Broadcast>) {
    share_lock(lock)
}
