//! A file, as a document has it.

use crate::pid_document::PidDocument;
use crate::program_document::ProgramDocument;
use crate::survey_lines::packet_length;
use files::StreamShape;
use probe::Survey;
use serde::Serialize;
use std::alloc::{AllocError, Global};

/// A file, as a document has it.
#[derive(Drop, Serialize)]
pub(crate) struct FileDocument<'a> {
    name: &'a str,
    packets: u64,
    /// How many bytes lie from one packet to the next, where five stand in step.
    size: Option<usize>,
    /// In bits a second, all bytes counted.
    rate: Option<u64>,
    variable: Option<bool>,
    /// The PID by whose PCRs the rate is known.
    clock: Option<u16>,
    tables: Vec<String>,
    programs: Vec<ProgramDocument>,
    pids: Vec<PidDocument>,
}

impl<'a> FileDocument<'a> {
    /// That of the file with this name, which looks like this. `Err` is want of memory.
    pub fn of(
        alloc: Global,
        name: &'a str,
        shape: StreamShape,
        survey: &Survey,
    ) -> Result<FileDocument<'a>, AllocError> {
        let mut tables = Vec::new(alloc);
        for table in &survey.tables {
            tables.push(format!(in alloc; "{table}")?)?;
        }
        let measured = survey.measured;
        Ok(FileDocument {
            name,
            packets: survey.packets,
            size: packet_length(shape),
            rate: measured.map(|measured| measured.rate),
            variable: measured.map(|measured| measured.is_variable),
            clock: measured.map(|measured| measured.pid),
            tables,
            programs: ProgramDocument::all_of(alloc, survey)?,
            pids: PidDocument::all_of(alloc, survey)?,
        })
    }
}
