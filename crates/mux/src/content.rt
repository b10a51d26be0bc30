//! What a slot carries.

use request::Stream;
use rounds::TablePlace;

/// The content of a slot.
#[derive(Clone, Copy)]
pub enum Content {
    /// The null packet.
    Null,
    /// The head of this stream's queue.
    Elementary(Stream),
    /// The table packet at this place of the plan's lists.
    Table(TablePlace),
}
