//! A PID, as a document has it.

use crate::trouble_document::TroubleDocument;
use probe::Survey;
use serde::Serialize;
use std::alloc::{AllocError, Global};

/// A PID that has packets, as a document has it.
#[derive(Drop, Serialize)]
pub(crate) struct PidDocument {
    pid: u16,
    packets: u64,
    /// In bits a second, as the one behind it.
    rate: Option<u64>,
    highest: Option<u64>,
    pcrs: u64,
    /// In nanoseconds.
    jitter: Option<u64>,
    troubles: Vec<TroubleDocument>,
}

impl PidDocument {
    /// Those of a stream. `Err` is want of memory.
    pub fn all_of(alloc: Global, survey: &Survey) -> Result<Vec<PidDocument>, AllocError> {
        let rate = survey.measured.map(|measured| measured.rate);
        let mut pids = Vec::new(alloc);
        for found in &survey.pids {
            pids.push(PidDocument {
                pid: found.pid,
                packets: found.packets,
                rate: found.rate,
                highest: found.highest,
                pcrs: found.pcrs,
                jitter: found.jitter,
                troubles: TroubleDocument::all_of(alloc, found, rate)?,
            })?;
        }
        Ok(pids)
    }
}
