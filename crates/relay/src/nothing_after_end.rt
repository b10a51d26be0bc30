//! What the sender promises the receiver.

ghost use Rattle.std.specs.Prelude.{◌≡◌};
ghost use Rattle.relay.specs.Messages.{marks_of, HasRoom};

use crate::message::Message;
use rtrb::Protocol;

/// Nothing is sent behind an end mark, and each block has room for as many packets as any. The receiver knows this of all that
/// comes, with no test when it runs.
#[derive(Clone, Copy)]
pub(crate) struct NothingAfterEnd;

impl Protocol<Message> for NothingAfterEnd {
    ghost allows = { λ before message. (marks_of before ≡ 0) × HasRoom message };
}
