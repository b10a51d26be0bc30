//! How often a fault was told on a PID, as a document has it.

use serde::Serialize;

/// How often a fault was told on a PID, as a document has it.
#[derive(Drop, Serialize)]
pub(crate) struct ToldDocument {
    /// Its number in ETSI TR 101 290.
    pub kind: &'static str,
    pub pid: Option<u16>,
    pub count: u64,
    /// The slot at which it was told first.
    pub first: u64,
    /// The slot at which it was told last.
    pub last: u64,
}
