//! An input of a plan and its measured rate, as a document has it.

use plan::Plan;
use rate_meter::Measured;
use serde::Serialize;
use std::alloc::{AllocError, Global};

/// An input of a plan and its measured rate, as a document has it.
#[derive(Drop, Serialize)]
pub(crate) struct MeasuredDocument<'a> {
    /// The name of its file.
    file: &'a str,
    /// As the plan states it, in bits a second.
    rate: u64,
    /// In bits a second.
    measured: Option<u64>,
    variable: Option<bool>,
    /// The PID by whose PCRs the rate is known.
    clock: Option<u16>,
}

impl<'a> MeasuredDocument<'a> {
    /// Those of a plan, whose inputs have these measured rates. `Err` is want of memory.
    pub fn all_of(
        alloc: Global,
        plan: &'a Plan,
        measured: &[Option<Measured>],
    ) -> Result<Vec<MeasuredDocument<'a>>, AllocError> {
        let mut inputs = Vec::new(alloc);
        for (number, input) in plan.inputs().iter().enumerate() {
            let measured = measured.get(number).copied().flatten();
            inputs.push(MeasuredDocument {
                file: input.file.as_str(),
                rate: input.rate,
                measured: measured.map(|measured| measured.rate),
                variable: measured.map(|measured| measured.is_variable),
                clock: measured.map(|measured| measured.pid),
            })?;
        }
        Ok(inputs)
    }
}
