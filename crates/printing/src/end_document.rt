//! The end of an analysis, as its document has it.

use crate::level_document::LevelDocument;
use crate::summary_document::SummaryDocument;
use serde::Serialize;

/// The end of an analysis, as its document has it.
#[derive(Drop, Serialize)]
pub(crate) struct EndDocument {
    pub slots: u64,
    pub faults: u64,
    /// How many bytes stand behind the last whole packet, or of a stream that is framed in no packet.
    pub rest: u64,
    pub summary: Option<SummaryDocument>,
    pub levels: Option<Vec<LevelDocument>>,
}
