//! A schedule that was read, and the files that it was read from.

use crate::file_identity::FileIdentity;
use crate::input_file::InputFile;
use schedule::Schedule;
use std::alloc::{AllocError, Global};

/// A schedule, and the files that it was read from.
#[derive(Drop)]
pub struct ReadSchedule<R> {
    pub schedule: Schedule,
    /// The plans' files, in their order; none where it isn't known which one it is.
    pub plan_files: Vec<Option<FileIdentity>>,
    /// The readers from which the tables of its inputs were read last, in their order.
    pub readers: Vec<R>,
}

impl<R: InputFile + Drop> ReadSchedule<R> {
    /// The files that were read, those that are known: the inputs, and the plans'.
    pub fn identities(&self, alloc: Global) -> Result<Vec<FileIdentity>, AllocError> {
        let mut read = Vec::new(alloc);
        let inputs = self.readers.iter().map(|reader| reader.identity());
        for identity in inputs.chain(self.plan_files.iter().copied()) {
            if let Some(identity) = identity {
                read.push(identity)?;
            }
        }
        Ok(read)
    }
}
