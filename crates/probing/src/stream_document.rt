//! A stream of a program, as a document has it.

use crate::survey_lines::language;
use probe::{Survey, codec_of};
use serde::Serialize;
use std::alloc::{AllocError, Global};
use tables::Pmt;

/// A stream of a program, as a document has it.
#[derive(Drop, Serialize)]
pub(crate) struct StreamDocument {
    pid: u16,
    #[serde(rename = "type")]
    stream_type: u8,
    language: Option<String>,
    scrambled: bool,
    codec: &'static str,
}

impl StreamDocument {
    /// Those of the program with this PMT. `Err` is want of memory.
    pub fn all_of(
        alloc: Global,
        survey: &Survey,
        pmt: &Pmt,
    ) -> Result<Vec<StreamDocument>, AllocError> {
        let mut streams = Vec::new(alloc);
        for row in pmt.rows() {
            let language = match language(row) {
                Some(code) => Some(String::from_str(alloc, code)?),
                None => None,
            };
            streams.push(StreamDocument {
                pid: row.elementary_pid,
                stream_type: row.stream_type,
                language,
                scrambled: survey.is_scrambled_stream(row),
                codec: codec_of(row).name(),
            })?;
        }
        Ok(streams)
    }
}
