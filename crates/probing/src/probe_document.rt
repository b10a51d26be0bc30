//! What is in streams, as a document.

use crate::file_document::FileDocument;
use documents::FORMAT;
use serde::Serialize;

/// What is in streams, as a document.
#[derive(Drop, Serialize)]
pub(crate) struct ProbeDocument<'a> {
    format: u64,
    command: &'static str,
    files: Vec<FileDocument<'a>>,
}

impl<'a> ProbeDocument<'a> {
    /// That of these files.
    pub fn of(files: Vec<FileDocument<'a>>) -> ProbeDocument<'a> {
        ProbeDocument {
            format: FORMAT,
            command: "probe",
            files,
        }
    }
}
