//! What may go to other threads.

ghost use Rattle.std.specs.Prelude.{◌≡◌};

use crate::watched::Watched;
use crate::watched_sink::WatchedSink;

fn sent<T: Send>(value: T) -> T
    ensures { result ≡ value }
{
    value
}

/// A watched source may be sent to another thread where the source may.
pub fn send_watched<R: Send>(watched: Watched<R>) -> Watched<R>
    ensures { result ≡ watched }
{
    sent(watched)
}

/// So may a watched sink.
pub fn send_sink<W: Send>(watched: WatchedSink<W>) -> WatchedSink<W>
    ensures { result ≡ watched }
{
    sent(watched)
}
