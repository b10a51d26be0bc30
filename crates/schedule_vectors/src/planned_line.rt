//! A line with plans.

use crate::plan_words::plan_with;
use anyhow::{Result, bail};
use plan::Plan;
use schedule::Schedule;
use std::alloc::Global;
use std::io::Write;

/// A later plan: its slot, and behind it how it differs from the example's.
fn later_plan(alloc: Global, words: &str) -> Result<(u64, Plan)> {
    let words = words.trim();
    let (slot, changes) = words.split_once(' ').unwrap_or((words, ""));
    match slot.parse::<u64>() {
        Ok(slot) => Ok((slot, plan_with(alloc, changes)?)),
        Err(_) => bail!("{slot} is no slot"),
    }
}

/// The schedule of the example's plan alone, with the values that these words give.
pub fn single<W: Write>(alloc: Global, words: &str, out: &mut W) -> Result<Schedule> {
    let schedule = Schedule::single(alloc, plan_with(alloc, words)?);
    let count = schedule.later_plans();
    write!(out, "single, {count} later")?;
    Ok(schedule)
}

/// The schedule of the plans in a line, if they make one: `FIRST / SLOT LATER / SLOT LATER ..`, each plan by how it differs from the
/// example's. It is printed how many plans it has, or the number and the name of their fault.
pub fn build<W: Write>(alloc: Global, line: &str, out: &mut W) -> Result<Option<Schedule>> {
    let mut plans = line.split('/');
    let first = plan_with(alloc, plans.next().unwrap_or(""))?;
    let mut later = Vec::new(alloc);
    for words in plans {
        later.push(later_plan(alloc, words)?)?;
    }
    match Schedule::build(alloc, first, later) {
        Ok(schedule) => {
            let count = schedule.later_plans();
            write!(out, "{count} later")?;
            Ok(Some(schedule))
        }
        Err(fault) => {
            let number = fault.number();
            write!(out, "fault {number} {fault:?}")?;
            Ok(None)
        }
    }
}

/// Prints of each switch of a schedule its slot, when that goes out, and the version of the plan that comes into force.
pub fn tell_switches<W: Write>(schedule: &Option<Schedule>, out: &mut W) -> Result<()> {
    let Some(schedule) = schedule else {
        bail!("there is no schedule");
    };
    for number in 0..schedule.later_plans() {
        let version = schedule.plan(number + 1).request().version();
        if let (Some(slot), Some(time)) = (
            schedule.switch_slot(number),
            schedule.switch_time(number),
        ) {
            write!(out, "[slot {slot} at {time}, version {version}]")?;
        }
    }
    Ok(())
}
