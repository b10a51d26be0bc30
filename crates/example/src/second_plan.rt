//! Schedules.

use crate::example_plan::{PLAN, planned, tables};
use anyhow::{Error, Result};
use plan::Plan;
use schedule::Schedule;
use std::alloc::Global;

/// The example's plan with this version, and its stream on this PID.
fn plan_with(alloc: Global, version: u64, out: u64) -> Result<Plan> {
    let mut text = String::new(alloc);
    for line in PLAN.lines() {
        let line = match line {
            "version = 0" => format!(in alloc; "version = {version}\n")?,
            "out = 512" => format!(in alloc; "out = {out}\n")?,
            same => format!(in alloc; "{same}\n")?,
        };
        text.push_str(&line)?;
    }
    planned(alloc, &text, &tables(alloc)?)
}

/// The example's plan, which goes over at slot 100 to one with its stream on PID 514.
pub fn switched(alloc: Global) -> Result<Schedule> {
    let later = vec![in alloc; (100, plan_with(alloc, 1, 514)?)]?;
    Schedule::build(alloc, plan_with(alloc, 0, 512)?, later).map_err(Error::from)
}

/// The example's plan, and so many more, one from each period on (100 slots), with the same stream.
pub fn plan_a_period(alloc: Global, count: u64) -> Result<Schedule> {
    let mut later = Vec::new(alloc);
    for version in 1..=count {
        later.push((version.saturating_mul(100), plan_with(alloc, version, 512)?))?;
    }
    Schedule::build(alloc, plan_with(alloc, 0, 512)?, later).map_err(Error::from)
}
