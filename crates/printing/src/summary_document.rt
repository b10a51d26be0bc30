//! What an analysis counted by kind and by PID, as a document has it.

use crate::kind_document::KindDocument;
use crate::pid_document::PidDocument;
use crate::told_document::ToldDocument;
use serde::Serialize;

/// What an analysis counted by kind and by PID, as a document has it.
#[derive(Drop, Serialize)]
pub(crate) struct SummaryDocument {
    pub kinds: Vec<KindDocument>,
    pub told: Vec<ToldDocument>,
    pub pids: Vec<PidDocument>,
}
