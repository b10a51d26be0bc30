//! A plan that was read, and the files that it was read from.

ghost use Rattle.std.specs.Prelude.{◌≡◌, length, IfOk};

use crate::CommandFault;
use crate::file_identity::FileIdentity;
use crate::input_file::InputFile;
use crate::sources::Sources;
use plan::Plan;
use std::alloc::{AllocError, Global};

/// A plan, and the files that it was read from.
#[derive(Drop)]
pub struct ReadPlan<R> {
    pub plan: Plan,
    /// The plan's file.
    pub plan_file: Option<FileIdentity>,
    /// The readers from which the tables of its inputs were read, in their order.
    pub readers: Vec<R>,
}

impl<R: InputFile + Drop> ReadPlan<R> {
    /// The files that were read, those that are known: the plan's, and the inputs.
    pub fn identities(&self, alloc: Global) -> Result<Vec<FileIdentity>, AllocError> {
        let mut read = Vec::new(alloc);
        for identity in self.readers.iter().map(|reader| reader.identity()) {
            if let Some(identity) = identity {
                read.push(identity)?;
            }
        }
        if let Some(identity) = self.plan_file {
            read.push(identity)?;
        }
        Ok(read)
    }
}

/// A reader of each input of a plan, from its beginning again; `first` has those from which their tables were read, in turn.
pub fn open_again<F: Sources>(
    alloc: Global,
    files: &mut F,
    plan: &Plan,
    first: Vec<F::Reader>,
) -> Result<Vec<F::Again>, CommandFault>
    ensures { IfOk result (λ readers. length readers.items ≡ length plan.now.request.inputs) }
{
    let mut first = first.into_iter();
    let mut readers = Vec::new(alloc);
    for input in plan.inputs() {
        let name = input.file.as_str();
        match files.again(name, first.next()) {
            Ok(reader) => readers.push(reader)?,
            Err(cause) => return Err(CommandFault::file(alloc, name, cause)),
        }
    }
    Ok(readers)
}
