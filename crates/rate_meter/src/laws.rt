//! What may go to other threads.

ghost use Rattle.std.specs.Prelude.{◌≡◌};

use crate::rate_meter::RateMeter;

fn sent<T: Send>(value: T) -> T
    ensures { result ≡ value }
{
    value
}

/// A meter may be sent to another thread.
pub fn send_meter(meter: RateMeter) -> RateMeter
    ensures { result ≡ meter }
{
    sent(meter)
}
