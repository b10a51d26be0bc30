//! How a multiplex goes over to the next plan.

ghost use Rattle.std.specs.Prelude.{◌≡◌, ◌+◌, ◌<◌, [], length, All};
ghost use Rattle.request.specs.declared.stream.Stream.{Stream};
ghost use Rattle.mux.specs.declared.event.Event.{Event};
ghost use Rattle.mux.specs.Keeping.{KeepsHeads};
ghost use Rattle.mux.specs.Switching.{after_switch, with_dropped};
ghost use Rattle.mux.specs.History.{has_stream, with_event, in_force};
ghost use Rattle.mux.specs.Lawful.{is_switch_due, MaySwitch};

use crate::choice::clear_notes;
use crate::event::Event;
use crate::head_list::HeadList;
use crate::input_state::InputState;
use crate::mux::Mux;
use crate::span::Span;
use buffers::PidQueue;
use plan::Plan;
use request::Stream;
use rounds::TableTurn;

/// Whether a plan has a stream.
pub(crate) fn has_stream(plan: &Plan, stream: &Stream) -> bool
    ensures { result ≡ has_stream plan.now stream.now }
{
    plan.streams()
        .iter()
        .any(|other| other.output_pid == stream.output_pid)
}

/// Empties a queue, and answers how many packets waited in it.
fn drop_all(queue: &mut PidQueue) -> u64
    ensures count { result ≡ length queue.old.items }
    ensures empty { queue.new.items ≡ [] }
    ensures capacity { queue.new.capacity ≡ queue.old.capacity }
{
    let count = queue.len();
    for _taken in 0..count {
        let _ = queue.take();
    }
    count as u64
}

/// Empties the queues of the streams that a plan doesn't have, and counts what waited in them.
fn drop_gone(
    streams: &[Stream],
    plan: &Plan,
    queues: &mut Vec<PidQueue>,
    heads: &mut HeadList,
    inputs: &mut Vec<InputState>,
)
    requires queues { length streams.now ≡ length queues.old.items }
    requires heads { KeepsHeads heads.old queues.old.items streams.now }
    requires inputs { All (λ (st : Stream). st.input < length inputs.old.items) streams.now }
    ensures queues { queues.new.items ≡ after_switch plan.now streams.now queues.old.items }
    ensures heads { KeepsHeads heads.new queues.new.items streams.now }
    ensures inputs { inputs.new.items ≡ with_dropped plan.now streams.now queues.old.items inputs.old.items }
{
    for (place, stream) in streams.iter().enumerate() {
        if !has_stream(plan, stream) {
            let queue = &mut queues[place];
            let input = &mut inputs[stream.input];
            input.dropped = input.dropped.saturating_add(drop_all(queue));
            heads.set(place, queue.head_time());
        }
    }
}

impl Mux {
    /// Whether the slot has come that the next plan is in force from.
    pub(crate) fn is_switch_due(&self) -> bool
        ensures { result ≡ is_switch_due self.now.run.schedule self.now.events }
    {
        self.progress.slot() == self.span.next_slot
    }

    /// The next plan comes into force. What waits of streams that it doesn't have is dropped, and the rounds of its tables begin here;
    /// all else goes on. No memory is asked for.
    pub(crate) fn switch(&mut self)
        requires may { MaySwitch self.old.run.schedule self.old.events (in_force self.old.events + 1) }
        ensures { self.new ≡ with_event self.old (Event.Switch (in_force self.old.events + 1)) }
    {
        let number = self.span.number + 1;
        let plan = self.schedule.plan(number);
        drop_gone(
            self.schedule.streams(),
            plan,
            &mut self.queues,
            &mut self.heads,
            &mut self.inputs,
        );
        self.span = Span::of(&self.schedule, number);
        self.turn = TableTurn::new(plan.rounds());
        clear_notes(&mut self.inputs, &mut self.is_noted);
        self.past.add(Event::Switch(number));
    }
}
