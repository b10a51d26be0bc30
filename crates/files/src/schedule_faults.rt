//! Why plans can't follow one another, in words.

use crate::CommandFault;
use plan::Plan;
use request::{PlanFault, Request};
use schedule::{
    LAST_SWITCH_SLOT, MAX_LATER_PLANS, Schedule, are_same_inputs, has_output_pid, has_pmt_of,
    has_stream,
};
use std::alloc::{AllocError, Global};

/// The key in which a plan differs from the first, where all of a run have one value.
fn uneven_key(first: &Request, other: &Request) -> Option<&'static str> {
    if other.rate() != first.rate() {
        Some("rate")
    } else if other.period() != first.period() {
        Some("period")
    } else if other.watch() != first.watch() {
        Some("watch")
    } else if other.queue() != first.queue() {
        Some("queue")
    } else if other.ring() != first.ring() {
        Some("ring")
    } else if other.transport_stream_id() != first.transport_stream_id() {
        Some("transport_stream_id")
    } else if other.original_network_id() != first.original_network_id() {
        Some("original_network_id")
    } else if other.network_id() != first.network_id() {
        Some("network_id")
    } else if !are_same_inputs(first.inputs(), other.inputs()) {
        Some("[[input]]")
    } else {
        None
    }
}

/// In words in what a later plan differs that has to be as in the first.
fn uneven_words(
    alloc: Global,
    first: &Plan,
    later: &[(u64, Plan)],
) -> Result<Option<String>, AllocError> {
    for (slot, plan) in later {
        if let Some(key) = uneven_key(first.request(), plan.request()) {
            let words = format!(in alloc;
                "the plan from slot {slot} on: its {key} isn't that of the first plan, and a run has one"
            )?;
            return Ok(Some(words));
        }
    }
    Ok(None)
}

/// In words which version a plan has to have.
fn version_words(
    alloc: Global,
    first: &Plan,
    later: &[(u64, Plan)],
) -> Result<Option<String>, AllocError> {
    let mut before = first.request().version();
    for (slot, plan) in later {
        let (version, next) = (plan.request().version(), before.wrapping_add(1) % 32);
        if version != next {
            let words = format!(in alloc;
                "the plan from slot {slot} on: version {version} follows {before}: state version = {next}"
            )?;
            return Ok(Some(words));
        }
        before = version;
    }
    Ok(None)
}

/// The first output PID of a plan that an earlier one has, and the one just before it hasn't for the same.
fn reused_pid(earlier: &[&Plan], before: &Plan, plan: &Plan) -> Option<u16> {
    let is_earlier = |pid: u16| earlier
        .iter()
        .any(|other| has_output_pid(other.request(), pid));
    for service in plan.services() {
        let (number, pmt) = (service.service, service.pmt);
        if is_earlier(pmt) && !has_pmt_of(before.request(), number, pmt) {
            return Some(pmt);
        }
    }
    for stream in plan.streams() {
        if is_earlier(stream.output_pid) && !has_stream(before.request(), stream) {
            return Some(stream.output_pid);
        }
    }
    None
}

/// In words which PID a plan has that an earlier one had for something else.
fn reused_words(
    alloc: Global,
    first: &Plan,
    later: &[(u64, Plan)],
) -> Result<Option<String>, AllocError> {
    let mut earlier = Vec::new(alloc);
    earlier.push(first)?;
    let mut before = first;
    for (slot, plan) in later {
        if let Some(pid) = reused_pid(&earlier, before, plan) {
            let words = format!(in alloc;
                "the plan from slot {slot} on: PID 0x{pid:04X} stands in an earlier plan, and the one just before doesn't have it for the same: a receiver would mix them up; take another"
            )?;
            return Ok(Some(words));
        }
        earlier.push(plan)?;
        before = plan;
    }
    Ok(None)
}

/// In words why a plan can't come into force at its slot.
fn slot_words(
    alloc: Global,
    first: &Plan,
    later: &[(u64, Plan)],
) -> Result<Option<String>, AllocError> {
    if later.len() > MAX_LATER_PLANS {
        let words = format!(in alloc; "at most {MAX_LATER_PLANS} plans may follow the first")?;
        return Ok(Some(words));
    }
    let period = first.period();
    let mut before = 0;
    for (slot, _) in later {
        let slot = *slot;
        if slot > LAST_SWITCH_SLOT {
            let words = format!(in alloc; "slot {slot} is above {LAST_SWITCH_SLOT}")?;
            return Ok(Some(words));
        }
        if slot <= before {
            let words = format!(in alloc;
                "slot {slot} comes behind slot {before}: give the plans in their order"
            )?;
            return Ok(Some(words));
        }
        if let Some(over) = slot.checked_rem(period)
            && over != 0
        {
            let (below, above) = (slot - over, (slot - over).saturating_add(period));
            let words = format!(in alloc;
                "a plan comes into force where a round of tables begins, every {period} slots: slot {slot} is none, {below} and {above} are"
            )?;
            return Ok(Some(words));
        }
        before = slot;
    }
    Ok(None)
}

/// In words why these plans can't follow one another, where there are some for the fault.
fn schedule_words(
    alloc: Global,
    fault: PlanFault,
    first: &Plan,
    later: &[(u64, Plan)],
) -> Result<Option<String>, AllocError> {
    match fault {
        PlanFault::SwitchUneven => uneven_words(alloc, first, later),
        PlanFault::VersionWrong => version_words(alloc, first, later),
        PlanFault::PidReused => reused_words(alloc, first, later),
        PlanFault::SwitchSlot => slot_words(alloc, first, later),
        PlanFault::SwitchTooLong => Ok(Some(String::from_str(
            alloc,
            "PAT and PMTs would come more than half a second apart across the switch: state a smaller period in all plans",
        )?)),
        _ => Ok(None),
    }
}

/// The fault of a plan that follows others from this slot on: its words say so, where there is memory for that.
pub(crate) fn of_later(alloc: Global, slot: u64, fault: CommandFault) -> CommandFault {
    match fault {
        CommandFault::Plan(fault) => match format!(in alloc; "in the plan from slot {slot} on") {
            Ok(words) => CommandFault::PlanCause(fault, words),
            Err(_) => CommandFault::Plan(fault),
        },
        CommandFault::PlanCause(fault, cause) => {
            match format!(in alloc; "the plan from slot {slot} on: {cause}") {
                Ok(words) => CommandFault::PlanCause(fault, words),
                Err(_) => CommandFault::PlanCause(fault, cause),
            }
        }
        other => other,
    }
}

/// Equal later plans.
fn copied(alloc: Global, later: &[(u64, Plan)]) -> Result<Vec<(u64, Plan)>, AllocError> {
    let mut plans = Vec::new(alloc);
    for (slot, plan) in later {
        plans.push((*slot, plan.copy(alloc)?))?;
    }
    Ok(plans)
}

/// The schedule of these plans. The fault says in words what is wrong with them, where there is memory for that.
pub(crate) fn schedule_of(
    alloc: Global,
    first: Plan,
    later: Vec<(u64, Plan)>,
) -> Result<Schedule, CommandFault> {
    if later.is_empty() {
        return Ok(Schedule::single(alloc, first));
    }
    match Schedule::build(alloc, first.copy(alloc)?, copied(alloc, &later)?) {
        Ok(schedule) => Ok(schedule),
        Err(fault) => match schedule_words(alloc, fault, &first, &later) {
            Ok(Some(words)) => Err(CommandFault::PlanCause(fault, words)),
            _ => Err(CommandFault::from(fault)),
        },
    }
}
