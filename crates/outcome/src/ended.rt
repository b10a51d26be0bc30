//! What a run leaves of an input.

use reading::Report;

/// What a run leaves of an input.
#[derive(Drop)]
pub struct Ended<T> {
    /// What was found in it.
    pub report: Report,
    /// Whether the multiplex was told that nothing more comes of it.
    pub is_closed: bool,
    /// What was lent to read it.
    pub lent: T,
}
