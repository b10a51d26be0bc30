//! A switch of a schedule, as a document has it.

use crate::service_document::ServiceDocument;
use crate::stream_document::StreamDocument;
use plan::Plan;
use schedule::{Schedule, has_stream};
use serde::Serialize;
use std::alloc::{AllocError, Global};

/// A switch of a schedule, as a document has it: its slot, the services of the plan that comes into force, and what becomes of the streams.
#[derive(Drop, Serialize)]
pub(crate) struct SwitchDocument {
    slot: u64,
    version: u8,
    services: Vec<ServiceDocument>,
    /// PIDs in the output, as those behind them.
    keeps: Vec<u16>,
    drops: Vec<u16>,
    begins: Vec<StreamDocument>,
}

impl SwitchDocument {
    /// That of a switch at this slot from one plan to the next. `Err` is want of memory.
    fn of(
        alloc: Global,
        slot: u64,
        before: &Plan,
        plan: &Plan,
    ) -> Result<SwitchDocument, AllocError> {
        let (mut keeps, mut drops) = (Vec::new(alloc), Vec::new(alloc));
        for stream in before.streams() {
            if has_stream(plan.request(), stream) {
                keeps.push(stream.output_pid)?;
            } else {
                drops.push(stream.output_pid)?;
            }
        }
        let mut begins = Vec::new(alloc);
        for stream in plan.streams() {
            if !has_stream(before.request(), stream) {
                begins.push(StreamDocument::of(stream))?;
            }
        }
        Ok(SwitchDocument {
            slot,
            version: plan.request().version(),
            services: ServiceDocument::all_of(alloc, plan)?,
            keeps,
            drops,
            begins,
        })
    }

    /// Those of a schedule. `Err` is want of memory.
    pub fn all_of(alloc: Global, schedule: &Schedule) -> Result<Vec<SwitchDocument>, AllocError> {
        let mut switches = Vec::new(alloc);
        for number in 0..schedule.later_plans() {
            let slot = schedule.switch_slot(number).unwrap_or(0);
            let (before, plan) = (schedule.plan(number), schedule.plan(number + 1));
            switches.push(SwitchDocument::of(alloc, slot, before, plan)?)?;
        }
        Ok(switches)
    }
}
