//! A PID of a stream, as a document has it.

use serde::Serialize;

/// A PID of a stream, as a document has it.
#[derive(Drop, Serialize)]
pub(crate) struct PidDocument {
    pub pid: usize,
    pub packets: u64,
    /// In bits a second.
    pub rate: u64,
}
