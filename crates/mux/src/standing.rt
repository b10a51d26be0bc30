//! What stands in a place for one packet.

/// What stands in a place for one packet.
#[derive(Clone, Copy)]
pub(crate) enum Standing {
    /// None.
    Nothing,
    /// The null packet.
    Null,
    /// Another one.
    Other,
}
