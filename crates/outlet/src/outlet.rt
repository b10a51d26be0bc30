//! What the packets of a run go out by.

use crate::slot_writer::SlotWriter;

/// What the packets of a run go out by: what analyses them and writes them through a buffer, and the writer behind it.
#[derive(Drop)]
pub struct Outlet<W> {
    /// What analyses the packets, and writes them through a buffer.
    pub output: SlotWriter,
    /// The writer behind it.
    pub sink: W,
}
