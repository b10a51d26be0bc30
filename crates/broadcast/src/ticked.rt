//! What a tick did.

use crate::ticked_slot::TickedSlot;

/// What became of the next slot, and how many packets that went out aren't published yet.
#[derive(Clone, Copy, Debug, PartialEq, Eq)]
pub struct Ticked {
    pub slot: TickedSlot,
    pub behind: u64,
}
