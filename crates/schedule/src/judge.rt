//! The faults of a schedule, by their numbers.

ghost use Rattle.std.specs.Prelude.{◌≡◌, ◌≢◌, ◌≤◌, ◌<◌, ◌↔◌, ◌+◌, ◌%◌, length, IsTrue, IfSome, IfNone};
ghost use Rattle.schedule.specs.Schedule.{schedule_of, span_at, plan_at};
ghost use Rattle.schedule.specs.Switches.{AreEven, VersionsFollow, IsApart, NoPidIsReused, SlotsFollow, IsSwitchSlot, RoundsAreShort, IsShortAcross, IsSchedule, IsScheduleFault};

use crate::evenness::is_even_with;
use crate::output_pids::reuses_no_pid;
use plan::Plan;
use request::PlanFault;
use rounds::{TableRounds, half_second};

/// How many plans may follow the first.
pub const MAX_LATER_PLANS: usize = 16;

/// The last slot that a later plan may be in force from.
pub const LAST_SWITCH_SLOT: u64 = 999_999;

/// The plan of this number: the first has number 0.
pub(crate) fn plan_at<'a>(first: &'a Plan, later: &'a [(u64, Plan)], number: usize) -> &'a Plan
    requires { number ≤ length later.now }
    ensures { result.now ≡ plan_at (schedule_of first.now later.now) number }
{
    match number.checked_sub(1) {
        None => first,
        Some(index) => &later[index].1,
    }
}

/// The slot that the plan of this number is in force from.
fn slot_at(first: &Plan, later: &[(u64, Plan)], number: usize) -> u64
    requires { number ≤ length later.now }
    ensures { result ≡ (span_at (schedule_of first.now later.now) number).slot }
{
    let _ = first;
    match number.checked_sub(1) {
        None => 0,
        Some(index) => later[index].0,
    }
}

/// Whether the later plans agree with the first in all that a run has one of.
fn are_even(first: &Plan, later: &[(u64, Plan)]) -> bool
    ensures { IsTrue result ↔ AreEven (schedule_of first.now later.now) }
{
    for number in 0..later.len() {
        if !is_even_with(first.request(), plan_at(first, later, number + 1).request()) {
            return false;
        }
    }
    true
}

/// Whether a version is the one before plus 1, modulo 32.
fn is_next_version(before: &Plan, plan: &Plan) -> bool
    ensures { IsTrue result ↔ (plan.now.request.version ≡ (before.now.request.version + 1) % 32) }
{
    u16::from(plan.request().version()) == (u16::from(before.request().version()) + 1) % 32
}

/// Whether each version is the one before plus 1, modulo 32.
fn versions_follow(first: &Plan, later: &[(u64, Plan)]) -> bool
    ensures { IsTrue result ↔ VersionsFollow (schedule_of first.now later.now) }
{
    for (number, after) in later.iter().enumerate() {
        if !is_next_version(plan_at(first, later, number), &after.1) {
            return false;
        }
    }
    true
}

/// Whether each output PID of the plan behind this one that a plan before it has is one that this plan has for the same.
fn is_apart(first: &Plan, later: &[(u64, Plan)], before: usize) -> bool
    requires { before < length later.now }
    ensures { IsTrue result ↔ IsApart (schedule_of first.now later.now) before }
{
    let last = plan_at(first, later, before);
    let plan = plan_at(first, later, before + 1);
    for number in 0..before + 1 {
        let earlier = plan_at(first, later, number);
        if !reuses_no_pid(earlier.request(), last.request(), plan.request()) {
            return false;
        }
    }
    true
}

/// The same of each later plan.
fn no_pid_is_reused(first: &Plan, later: &[(u64, Plan)]) -> bool
    ensures { IsTrue result ↔ NoPidIsReused (schedule_of first.now later.now) }
{
    for before in 0..later.len() {
        if !is_apart(first, later, before) {
            return false;
        }
    }
    true
}

/// Whether `slot` may be that of a plan of this period, where the plan before begins at `before`.
fn is_switch_slot(period: u64, before: u64, slot: u64) -> bool
    requires { 1 ≤ period }
    ensures { IsTrue result ↔ IsSwitchSlot period before slot }
{
    slot % period == 0 && before < slot && slot <= LAST_SWITCH_SLOT
}

/// Whether there are 16 later plans at most, and each begins at a round's slot after the one before.
fn slots_follow(first: &Plan, later: &[(u64, Plan)]) -> bool
    ensures { IsTrue result ↔ SlotsFollow (schedule_of first.now later.now) }
{
    if later.len() > MAX_LATER_PLANS {
        return false;
    }
    first.known();
    let period = first.period();
    for (number, after) in later.iter().enumerate() {
        if !is_switch_slot(period, slot_at(first, later, number), after.0) {
            return false;
        }
    }
    true
}

/// Whether the period and one gap for each packet of PAT and PMTs are at most the slots of half a second.
fn is_short_across(rounds: &TableRounds) -> bool
    ensures { IsTrue result ↔ IsShortAcross rounds.now }
{
    rounds.known();
    let limit = half_second(rounds.rate());
    rounds.period() + rounds.fast_len() as u64 * rounds.gap() <= limit
}

/// Whether PAT and PMTs come within their limit across each switch.
fn rounds_are_short(first: &Plan, later: &[(u64, Plan)]) -> bool
    ensures { IsTrue result ↔ RoundsAreShort (schedule_of first.now later.now) }
{
    for number in 0..later.len() {
        if !is_short_across(plan_at(first, later, number + 1).rounds()) {
            return false;
        }
    }
    true
}

/// The fault of the least number that applies to a schedule of these plans.
pub(crate) fn schedule_fault(first: &Plan, later: &[(u64, Plan)]) -> Option<PlanFault>
    ensures none { IfNone result (IsSchedule (schedule_of first.now later.now)) }
    ensures some { IfSome result (λ fault. IsScheduleFault (schedule_of first.now later.now) fault
        × (fault ≢ PlanFault.Memory)) }
{
    if !are_even(first, later) {
        return Some(PlanFault::SwitchUneven);
    }
    if !versions_follow(first, later) {
        return Some(PlanFault::VersionWrong);
    }
    if !no_pid_is_reused(first, later) {
        return Some(PlanFault::PidReused);
    }
    if !slots_follow(first, later) {
        return Some(PlanFault::SwitchSlot);
    }
    if !rounds_are_short(first, later) {
        return Some(PlanFault::SwitchTooLong);
    }
    None
}
