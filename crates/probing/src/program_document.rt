//! A program, as a document has it.

use crate::stream_document::StreamDocument;
use crate::survey_lines::described;
use probe::{DvbText, Survey};
use serde::Serialize;
use std::alloc::{AllocError, Global};
use tables::PatRow;

/// A program, as a document has it.
#[derive(Drop, Serialize)]
pub(crate) struct ProgramDocument {
    number: u16,
    pmt: u16,
    pcr: Option<u16>,
    scrambled: Option<bool>,
    #[serde(rename = "type")]
    service_type: Option<u8>,
    name: Option<String>,
    streams: Vec<StreamDocument>,
}

impl ProgramDocument {
    /// That of the program at this place. `Err` is want of memory.
    fn of(
        alloc: Global,
        survey: &Survey,
        place: usize,
        program: &PatRow,
    ) -> Result<ProgramDocument, AllocError> {
        let pmt = survey.pmt(place);
        let row = survey.row(program.program_number);
        let described = described(row);
        let name = match described {
            Some(described) => {
                let name = DvbText(described.service_name);
                Some(format!(in alloc; "{name}")?)
            }
            None => None,
        };
        let streams = match pmt {
            Some(pmt) => StreamDocument::all_of(alloc, survey, pmt)?,
            None => Vec::new(alloc),
        };
        Ok(ProgramDocument {
            number: program.program_number,
            pmt: program.pid,
            pcr: pmt.map(|pmt| pmt.pcr_pid()),
            scrambled: pmt.map(|pmt| survey.is_scrambled(pmt, row)),
            service_type: described.map(|described| described.service_type),
            name,
            streams,
        })
    }

    /// Those of a stream. `Err` is want of memory.
    pub fn all_of(alloc: Global, survey: &Survey) -> Result<Vec<ProgramDocument>, AllocError> {
        let mut programs = Vec::new(alloc);
        for (place, program) in survey.programs.iter().enumerate() {
            programs.push(ProgramDocument::of(alloc, survey, place, program)?)?;
        }
        Ok(programs)
    }
}
