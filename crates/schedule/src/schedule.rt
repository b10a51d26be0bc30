//! Plans one after another.

ghost use Rattle.std.specs.Prelude.{◌≡◌, length, nat_le, count_by, slice_get, option_and_then, ◌≤◌, IfOk};
ghost use Rattle.request.specs.declared.stream.Stream.{Stream};
ghost use Rattle.schedule.specs.Schedule.{schedule_of};
ghost use Rattle.schedule.specs.Switches.{SlotsFollow};
ghost use Rattle.schedule.specs.Streams.{place_of};
ghost use Rattle.schedule.specs.Keeping.{times_of};

use crate::all_streams::{kept_places, kept_streams};
use crate::built::know_plans;
use crate::judge::{plan_at, schedule_fault};
use plan::{Plan, PlannedStream};
use request::{PlanFault, Stream};
use std::alloc::{AllocError, Global};
use std::marker::Model;
use tspkt::time;

/// A plan, and those that follow it, each from its slot on. Numbers of plans are from 0, which is the first.
#[derive(Drop)]
pub struct Schedule {
    first: Plan,
    later: Vec<(u64, Plan)>,
    /// When the slots of the later plans go out, in ticks of 27 MHz.
    times: Vec<u64>,
    /// Each stream of the plans once. Empty where there is one plan, which has them.
    streams: Vec<Stream>,
    /// The place among these of each stream of each plan. Empty where there is one plan: its numbers are the places.
    places: Vec<Vec<Option<usize>>>,
}

impl Model for Schedule {
    ghost use Rattle.std.specs.Prelude.{◌≡◌, map};
    ghost use Rattle.schedule.specs.Schedule.{ScheduleValue, schedule_of};
    ghost use Rattle.schedule.specs.Keeping.{times_of, streams_kept, places_kept};
    ghost use Rattle.schedule.specs.Switches.{IsSchedule};
    ghost use Rattle.schedule.specs.Laws.{AreBuilt};

    ghost Value = { ScheduleValue };

    ghost view = { λ s. schedule_of s.first s.later.items };

    ghost invariant = { λ s. AreBuilt (schedule_of s.first s.later.items)
        × IsSchedule (schedule_of s.first s.later.items)
        × (s.times.items ≡ times_of s.first s.later.items)
        × (s.streams.items ≡ streams_kept s.first s.later.items)
        × (map (λ v. v.items) s.places.items ≡ places_kept s.first s.later.items) };
}

/// When the slots of later plans go out.
fn switch_times(alloc: Global, first: &Plan, later: &[(u64, Plan)]) -> Result<Vec<u64>, AllocError>
    requires { SlotsFollow (schedule_of first.now later.now) }
    ensures { IfOk result (λ times. times.items ≡ times_of first.now later.now) }
{
    first.known();
    let rate = first.request().rate();
    let mut times = Vec::with_capacity(alloc, later.len())?;
    for after in later {
        times.push(time(188 * after.0 + 10, rate))?;
    }
    Ok(times)
}

/// Equal later plans.
fn copy_later(alloc: Global, later: &[(u64, Plan)]) -> Result<Vec<(u64, Plan)>, AllocError>
    ensures { IfOk result (λ copied. copied.items ≡ later.now) }
{
    let mut copied = Vec::with_capacity(alloc, later.len())?;
    for after in later {
        copied.push((after.0, after.1.copy(alloc)?))?;
    }
    Ok(copied)
}

/// How many of these times have come at a stamp.
fn times_come(times: &[u64], stamp: u64) -> usize
    ensures value { result ≡ count_by (λ time. nat_le time stamp) times.now }
    ensures bound { result ≤ length times.now }
{
    times.iter().filter(|time| **time <= stamp).count()
}

/// The time of a number, where there is one.
fn time_at(times: &[u64], number: usize) -> Option<u64>
    ensures { result ≡ slice_get times.now number }
{
    let time = times.get(number)?;
    Some(*time)
}

/// The place of a number, where there is one.
fn place_at(places: &[Option<usize>], number: usize) -> Option<usize>
    ensures { result ≡ option_and_then (λ place. place) (slice_get places.now number) }
{
    match places.get(number) {
        Some(place) => *place,
        None => None,
    }
}

/// The place of a plan's stream among those of the plan: its number, where there is such a stream.
fn number_in(plan: &Plan, stream: usize) -> Option<usize>
    ensures { result ≡ option_and_then (λ (st : Stream). place_of plan.now.request.streams st.output_pid)
        (slice_get plan.now.request.streams stream) }
{
    plan.known();
    if stream < plan.streams().len() {
        Some(stream)
    } else {
        None
    }
}

impl Schedule {
    ghost use Rattle.std.specs.Prelude.{◌≡◌, ◌≤◌, length, option_map, option_and_then, slice_get, IfOk, IfErr};
    ghost use Rattle.request.specs.declared.stream.Stream.{Stream};
    ghost use Rattle.schedule.specs.Schedule.{SpanValue, schedule_of, single, slot_time, plan_at, number_for, scheduled_stream};
    ghost use Rattle.schedule.specs.Streams.{all_streams, place_of, scheduled_place};
    ghost use Rattle.schedule.specs.Switches.{IsSchedule, IsScheduleFault};
    ghost use Rattle.schedule.specs.Laws.{IsMultiplexSchedule};

    /// The schedule of one plan.
    pub fn single(alloc: Global, plan: Plan) -> Schedule
        ensures { result ≡ single plan }
    {
        let later = Vec::new(alloc);
        know_plans(&plan, &later);
        Schedule {
            first: plan,
            later,
            times: Vec::new(alloc),
            streams: Vec::new(alloc),
            places: Vec::new(alloc),
        }
    }

    /// The schedule of plans to which no fault applies. It fails only for want of memory.
    fn assemble(alloc: Global, first: Plan, later: Vec<(u64, Plan)>) -> Result<Schedule, AllocError>
        requires { IsSchedule (schedule_of first later.items) }
        ensures { IfOk result (λ s. s ≡ schedule_of first later.items) }
    {
        know_plans(&first, &later);
        let times = switch_times(alloc, &first, &later)?;
        let streams = kept_streams(alloc, &first, &later)?;
        let places = kept_places(alloc, &streams, &first, &later)?;
        Ok(Schedule {
            first,
            later,
            times,
            streams,
            places,
        })
    }

    /// The schedule of a plan and of those that follow it, each with the slot that it is in force from.
    ///
    /// Of the faults that apply the one with the least number is answered: `SwitchUneven` where a later plan differs in its rate,
    /// period, watch, queue, ring, an id, or its inputs, the names of their files too; `VersionWrong` where its version isn't the
    /// one before plus 1, modulo 32; `PidReused` where an output PID of an earlier plan stands in it, and the plan just before
    /// doesn't have it for the same stream (input, PID, output PID and leak) or for the PMT of the same output service;
    /// `SwitchSlot` where there are more than 16 later plans, or a slot is 0, no multiple of the period, not above the one before,
    /// or above 999,999; `SwitchTooLong` where a later plan's period and a gap for each packet of its PAT and PMTs are more slots than
    /// half a second has; and `Memory` only where none of these applies.
    pub fn build(alloc: Global, first: Plan, later: Vec<(u64, Plan)>) -> Result<Schedule, PlanFault>
        ensures schedule { IfOk result (λ s. s ≡ schedule_of first later.items) }
        ensures faultless { IfOk result (λ s. IsSchedule s) }
        ensures fault { IfErr result (IsScheduleFault (schedule_of first later.items)) }
    {
        if let Some(fault) = schedule_fault(&first, &later) {
            return Err(fault);
        }
        Ok(Schedule::assemble(alloc, first, later)?)
    }

    /// An equal schedule. It fails only for want of memory.
    pub fn copy(&self, alloc: Global) -> Result<Schedule, AllocError>
        ensures { IfOk result (λ schedule. schedule ≡ self.now) }
    {
        let first = self.first.copy(alloc)?;
        let later = copy_later(alloc, &self.later)?;
        Schedule::assemble(alloc, first, later)
    }

    /// What every schedule keeps.
    pub fn known(&self)
        ensures { IsMultiplexSchedule self.now }
    {
        let _ = &self.later;
    }

    /// How many plans follow the first.
    pub fn later_plans(&self) -> usize
        ensures count { result ≡ length self.now.later }
    {
        self.later.len()
    }

    /// The plan of this number, from 0, which is the first, to `later_plans`.
    pub fn plan(&self, number: usize) -> &Plan
        requires { number ≤ length self.now.later }
        ensures { result.now ≡ plan_at self.now number }
    {
        plan_at(&self.first, &self.later, number)
    }

    /// The slot of the switch behind the plan of this number: from it on the next plan is in force. None behind the last plan.
    pub fn switch_slot(&self, number: usize) -> Option<u64>
        ensures { result ≡ option_map (λ (w : SpanValue). w.slot) (slice_get self.now.later number) }
    {
        let after = self.later.get(number)?;
        Some(after.0)
    }

    /// When the slot of the switch behind the plan of this number goes out, in ticks of 27 MHz. None behind the last plan.
    pub fn switch_time(&self, number: usize) -> Option<u64>
        ensures { result ≡ option_map (λ (w : SpanValue). slot_time self.now.first w.slot)
            (slice_get self.now.later number) }
    {
        time_at(&self.times, number)
    }

    /// The number of the plan that a packet of this time belongs to, in ticks of 27 MHz: the last whose first slot goes out then
    /// or before, or the first plan.
    pub fn number_for(&self, stamp: u64) -> usize
        ensures value { result ≡ number_for self.now stamp }
        ensures within { result ≤ length self.now.later }
    {
        if self.later.is_empty() {
            return 0;
        }
        times_come(&self.times, stamp)
    }

    /// Each stream of the schedule once: those of the first plan in its order, and behind them of each later plan those that no
    /// plan before has. A stream keeps its place for the whole run.
    pub fn streams(&self) -> &[Stream]
        ensures { result.now ≡ all_streams self.now }
    {
        if self.later.is_empty() {
            self.first.streams()
        } else {
            &self.streams
        }
    }

    /// The place, among all streams, of a plan's stream, given the plan's number and the stream's number in it; none where the plan has
    /// no stream of that number.
    pub fn place(&self, number: usize, stream: usize) -> Option<usize>
        requires { number ≤ length self.now.later }
        ensures { result ≡ option_and_then (λ (st : Stream). place_of (all_streams self.now) st.output_pid)
            (slice_get (plan_at self.now number).request.streams stream) }
    {
        if self.later.is_empty() {
            return number_in(&self.first, stream);
        }
        place_at(&self.places[number], stream)
    }

    /// The place, among all streams, of the stream that a packet of this input, PID and time is of; none where the plan that the packet
    /// belongs to names no such stream.
    pub fn find(&self, input: usize, pid: u16, stamp: u64) -> Option<usize>
        ensures { result ≡ scheduled_place self.now input pid stamp }
    {
        let number = self.number_for(stamp);
        let planned = self.plan(number).lookup(input, pid)?;
        self.place(number, planned.number)
    }

    /// The stream of a packet with this PID of this input and this time, by the plan that the packet belongs to; none where that
    /// plan names no such stream.
    pub fn lookup(&self, input: usize, pid: u16, stamp: u64) -> Option<PlannedStream>
        ensures { result ≡ scheduled_stream self.now input pid stamp }
    {
        self.plan(self.number_for(stamp)).lookup(input, pid)
    }
}
