//! What is wrong on a PID, as a document has it.

use crate::survey_lines::troubles_of;
use advice::reached;
use probe::PidSurvey;
use serde::Serialize;
use std::alloc::{AllocError, Global};

/// What is wrong on a PID, as a document has it.
#[derive(Drop, Serialize)]
pub(crate) struct TroubleDocument {
    kind: &'static str,
    count: u64,
    /// The number of the first packet of which it is told.
    packet: u64,
    /// The byte at which that packet begins.
    byte: u64,
    /// When that byte comes at the stream's rate, in milliseconds, where that is known.
    ms: Option<u64>,
}

impl TroubleDocument {
    /// Those of a PID of a stream of this rate, in bits a second. `Err` is want of memory.
    pub fn all_of(
        alloc: Global,
        survey: &PidSurvey,
        rate: Option<u64>,
    ) -> Result<Vec<TroubleDocument>, AllocError> {
        let mut troubles = Vec::new(alloc);
        for (kind, trouble) in troubles_of(survey) {
            if let Some(first) = trouble.first {
                troubles.push(TroubleDocument {
                    kind,
                    count: trouble.count,
                    packet: first.packet,
                    byte: first.position,
                    ms: rate.map(|rate| reached(0, rate, first.position)),
                })?;
            }
        }
        Ok(troubles)
    }
}
