//! The span of a plan.

ghost use Rattle.std.specs.Prelude.{◌≤◌, length};
ghost use Rattle.mux.specs.Keeping.{IsSpanOf};

use schedule::Schedule;

/// The plan in force, by its number, and what is asked for with each slot and each packet of when it is in force.
#[derive(Clone, Copy)]
pub(crate) struct Span {
    /// The plan's number in the schedule, from 0.
    pub number: usize,
    /// The slot that the next plan is in force from; `u64::MAX` where there is none.
    pub next_slot: u64,
    /// A packet of this time and before `ends` belongs to the plan, in ticks of 27 MHz. The first plan has all earlier ones too.
    pub begins: u64,
    /// The time from which on packets belong to the next plan; `u64::MAX` where there is none.
    pub ends: u64,
}

impl Span {
    /// The span of the plan of this number.
    pub fn of(schedule: &Schedule, number: usize) -> Span
        requires { number ≤ length schedule.now.later }
        ensures { IsSpanOf schedule.now number result }
    {
        let begins = match number.checked_sub(1) {
            None => 0,
            Some(index) => schedule.switch_time(index).unwrap_or(0),
        };
        Span {
            number,
            next_slot: schedule.switch_slot(number).unwrap_or(u64::MAX),
            begins,
            ends: schedule.switch_time(number).unwrap_or(u64::MAX),
        }
    }
}
