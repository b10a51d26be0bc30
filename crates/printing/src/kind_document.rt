//! How many faults of a kind there are, as a document has it.

use crate::fault_lines::KINDS;
use analyse::FaultCounts;
use serde::Serialize;
use std::alloc::{AllocError, Global};

/// How many faults of a kind there are, as a document has it.
#[derive(Drop, Serialize)]
pub(crate) struct KindDocument {
    /// Its number in ETSI TR 101 290.
    kind: &'static str,
    /// Its name there.
    name: &'static str,
    count: u64,
}

impl KindDocument {
    /// Those of the kinds that were told. `Err` is want of memory.
    pub fn all_of(alloc: Global, counts: &FaultCounts) -> Result<Vec<KindDocument>, AllocError> {
        let mut kinds = Vec::new(alloc);
        for kind in KINDS {
            let count = counts.of(kind);
            if count > 0 {
                kinds.push(KindDocument {
                    kind: kind.number(),
                    name: kind.name(),
                    count,
                })?;
            }
        }
        Ok(kinds)
    }
}
