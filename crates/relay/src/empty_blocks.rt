//! What the receiver promises the sender.

ghost use Rattle.relay.specs.Messages.{IsEmptyBlock};

use rtrb::Protocol;
use tspkt::Packet;

/// Each block that comes back is empty, and has room for as many packets as any.
#[derive(Clone, Copy)]
pub(crate) struct EmptyBlocks;

impl Protocol<Vec<Packet>> for EmptyBlocks {
    ghost allows = { λ _ block. IsEmptyBlock block };
}
