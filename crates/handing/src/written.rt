//! What the thread of the output leaves.

use outlet::{Outlet, RunFault};
use relay::BlockReceiver;

/// What the thread of the output leaves: the end of its relay, what the packets went out by, and how it ended.
#[derive(Drop)]
pub(crate) struct Written<W> {
    pub receiver: BlockReceiver,
    pub outlet: Outlet<W>,
    pub result: Result<(), RunFault>,
}
