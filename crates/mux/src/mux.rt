//! The multiplex: its state, and what it tells of it.

ghost use Rattle.std.specs.Prelude.{◌≡◌, ◌^◌, ◌<◌, ◌≤◌, [], map, false, IfOk, Some, length};
ghost use Rattle.std.specs.List.{range_with_len, slice_get};
ghost use Rattle.request.specs.declared.stream.Stream.{Stream};
ghost use Rattle.mux.specs.declared.event.Event.{Event};
ghost use Rattle.schedule.specs.Streams.{all_streams};
ghost use Rattle.mux.specs.History.{opened, in_force, plan_in_force, slots};
ghost use Rattle.schedule.specs.Laws.{IsMultiplexSchedule};
ghost use Rattle.mux.specs.Lawful.{IsLawful, input_count};
ghost use Rattle.mux.specs.Totals.{told, IsTotals, IsCounts};
ghost use Rattle.mux.specs.Headline.{IsSound, IsLevelOf};
ghost use Rattle.mux.specs.Peaks.{IsPeak};
ghost use Rattle.mux.specs.Keeping.{new_state, empty_queue, no_peak};
ghost use Rattle.mux.specs.Switching.{waiting_in};

mod by_value;
mod offering;
mod sending;
mod switching;

use crate::counts::Counts;
use crate::event::Event;
use crate::head_list::HeadList;
use crate::input_state::InputState;
use crate::output::Output;
use crate::peak::Peak;
use crate::progress::Progress;
use crate::span::Span;
use crate::totals::Totals;
use buffers::PidQueue;
use past::Past;
use plan::Plan;
use request::{MAX_RATE, Stream};
use rounds::TableTurn;
use schedule::Schedule;
use std::alloc::{AllocError, Global};
use std::marker::Model;

/// The greatest number of slots of a run: 2^40. A week at 100,000,000 bits a second has 40,212,765,958 slots.
pub const MAX_SLOTS: u64 = 1_099_511_627_776;

// A week at the greatest rate is within it.
const _: () = prove!(7 * 86_400 * MAX_RATE < MAX_SLOTS * 8 * 188);

/// A multiplex: its history, and what is kept beside it so that no call walks along the history.
#[derive(Drop)]
pub struct Mux {
    schedule: Schedule,
    /// The plan in force.
    span: Span,
    limit: u64,
    past: Past<Event>,
    output: Output,
    inputs: Vec<InputState>,
    /// Whether something was noted of an input since the last slot or switch.
    is_noted: bool,
    /// A queue for each stream of the schedule, by its place. That of a stream that isn't in force is empty.
    queues: Vec<PidQueue>,
    /// The head of each queue, side by side, so that a slot finds the one that goes first without the queues.
    heads: HeadList,
    peaks: Vec<Peak>,
    progress: Progress,
    turn: TableTurn,
    counts: Counts,
}

impl Model for Mux {
    ghost use Rattle.mux.specs.History.{Run, History};
    ghost use Rattle.schedule.specs.Streams.{all_streams};
    ghost use Rattle.mux.specs.History.{in_force};
    ghost use Rattle.mux.specs.Keeping.{IsKept, KeepsPeaks, KeepsNoted, KeepsHeads, IsSpanOf};

    ghost Value = { History };

    ghost view = { λ m. record {
      run = record { schedule = m.schedule; limit = m.limit };
      events = m.past;
    } };

    ghost invariant = { λ m. IsKept
        (record { schedule = m.schedule; limit = m.limit }) m.past
        m.inputs.items m.queues.items m.progress.buckets m.progress.clock m.turn m.output m.counts
        × IsSpanOf m.schedule (in_force m.past) m.span
        × KeepsPeaks m.schedule m.past m.peaks.items
        × KeepsNoted m.is_noted m.inputs.items
        × KeepsHeads m.heads m.queues.items (all_streams m.schedule) };
}

/// What is kept of so many inputs before the first packet.
fn new_states(alloc: Global, inputs: usize) -> Result<Vec<InputState>, AllocError>
    ensures { IfOk result (λ v. v.items ≡ map new_state (range_with_len 0 inputs)) }
{
    let mut states = Vec::new(alloc);
    for _ in 0..inputs {
        states.push(InputState {
            closed: false,
            last_stamp: 0,
            full_noted: false,
            early_noted: false,
            sent: 0,
            dropped: 0,
        })?;
    }
    Ok(states)
}

/// An empty queue a stream.
fn new_queues(
    alloc: Global,
    streams: &[Stream],
    capacity: usize,
) -> Result<Vec<PidQueue>, AllocError>
    requires from { 1 ≤ capacity }
    requires to { capacity ≤ 1024 }
    ensures { IfOk result (λ v. v.items ≡ map (empty_queue capacity) streams.now) }
{
    let mut queues = Vec::new(alloc);
    for _ in streams {
        queues.push(PidQueue::with_capacity(alloc, capacity)?)?;
    }
    Ok(queues)
}

/// The peak of a stream that took nothing, a stream.
fn new_peaks(alloc: Global, streams: &[Stream]) -> Result<Vec<Peak>, AllocError>
    ensures { IfOk result (λ v. v.items ≡ map no_peak streams.now) }
{
    let mut peaks = Vec::new(alloc);
    for _ in streams {
        peaks.push(Peak {
            delay: 0,
            queued: 0,
        })?;
    }
    Ok(peaks)
}

/// How many packets of an input wait in these queues, one a stream; or the greatest number.
fn count_queued(streams: &[Stream], queues: &[PidQueue], input: usize) -> u64
    requires { length streams.now ≡ length queues.now }
    ensures { result ≡ told (waiting_in input streams.now queues.now) }
{
    let mut count: u64 = 0;
    for (place, stream) in streams.iter().enumerate() {
        if stream.input == input {
            count = count.saturating_add(queues[place].len() as u64);
        }
    }
    count
}

impl Mux {
    /// A multiplex of this schedule with nothing taken or sent, for at most this many slots (at most 2^40). There is a queue and a
    /// buffer for each stream of the schedule from here on, so a switch asks for no memory.
    pub fn open(alloc: Global, schedule: Schedule, slots: u64) -> Result<Mux, AllocError>
        requires { slots ≤ 2 ^ 40 }
        ensures { IfOk result (λ m. m ≡ opened schedule slots) }
    {
        schedule.known();
        let plan = schedule.plan(0);
        plan.known();
        let streams = schedule.streams();
        let turn = TableTurn::new(plan.rounds());
        let inputs = new_states(alloc, plan.inputs().len())?;
        let queues = new_queues(alloc, streams, plan.request().queue())?;
        let peaks = new_peaks(alloc, streams)?;
        let progress = Progress::new(alloc, plan.rate(), streams)?;
        let output = Output::new(alloc)?;
        let heads = HeadList::new(alloc, streams, queues.as_slice())?;
        let span = Span::of(&schedule, 0);
        Ok(Mux {
            schedule,
            span,
            limit: slots,
            past: Past::new(),
            output,
            inputs,
            is_noted: false,
            queues,
            heads,
            peaks,
            progress,
            turn,
            counts: Counts {
                tables: 0,
                elementary: 0,
                null: 0,
            },
        })
    }

    /// Its schedule, lent.
    pub fn schedule(&self) -> &Schedule
        ensures { result.now ≡ self.now.run.schedule }
    {
        &self.schedule
    }

    /// The number of the plan in force, from 0.
    pub fn in_force(&self) -> usize
        ensures value { result ≡ in_force self.now.events }
        ensures within { result ≤ length self.now.run.schedule.later }
    {
        self.span.number
    }

    /// The plan in force, lent.
    pub fn plan(&self) -> &Plan
        ensures { result.now ≡ plan_in_force self.now.run.schedule self.now.events }
    {
        self.schedule.plan(self.in_force())
    }

    /// What every multiplex keeps of its schedule and its history, and what holds of all that went out of it.
    pub fn known(&self)
        ensures schedule { IsMultiplexSchedule self.now.run.schedule }
        ensures lawful { IsLawful self.now.run.schedule self.now.events }
        ensures sound { IsSound self.now }
    {
        self.output.known();
    }

    /// How many slots were sent.
    pub fn slots(&self) -> u64
        ensures { result ≡ slots self.now.events }
    {
        self.progress.slot()
    }

    /// What became of the packets of an input.
    pub fn totals(&self, input: usize) -> Totals
        requires { input < input_count self.now.run.schedule }
        ensures { IsTotals self.now.run.schedule input self.now.events result }
    {
        let state = self.inputs[input];
        let queued = count_queued(self.schedule.streams(), self.queues.as_slice(), input);
        Totals {
            taken: state
                .sent
                .saturating_add(state.dropped)
                .saturating_add(queued),
            sent: state.sent,
            dropped: state.dropped,
            queued,
        }
    }

    /// What the slots carried.
    pub fn counts(&self) -> Counts
        ensures { IsCounts self.now.events result }
    {
        self.counts
    }

    /// The level of a stream's transport buffer (ISO/IEC 13818-1, 2.4.2) after the last slot, in bits a second times bytes:
    /// 512 bytes are 512 times the rate of the multiplex. The stream is one of the plan in force, named by its number there. Before the
    /// first slot it is 0.
    pub fn level(&self, stream: usize) -> u64
        requires { stream < length (plan_in_force self.now.run.schedule self.now.events).request.streams }
        ensures { (st : Stream) → slice_get (plan_in_force self.now.run.schedule self.now.events).request.streams stream ≡ Some st
            → IsLevelOf self.now.run.schedule self.now.events st result }
    {
        match self.schedule.place(self.in_force(), stream) {
            Some(place) => self.progress.bucket(place).level(),
            None => unreachable!(),
        }
    }

    /// The largest delay of a stream's packets that were sent, and the most packets that ever waited in its queue. The stream
    /// is named by its place in the schedule.
    pub fn peak(&self, place: usize) -> Peak
        requires { place < length (all_streams self.now.run.schedule) }
        ensures { (st : Stream) → slice_get (all_streams self.now.run.schedule) place ≡ Some st
            → IsPeak self.now.run.schedule self.now.events st result }
    {
        self.peaks[place]
    }
}
