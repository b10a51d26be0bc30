//! Where framing stands.

/// Whether a framer has sync.
#[derive(Clone, Copy)]
pub enum Mode {
    /// No sync; the loss began at this place.
    Hunting(u64),
    /// In sync, with so many bytes to pass over before the next packet.
    Synced(usize),
}
