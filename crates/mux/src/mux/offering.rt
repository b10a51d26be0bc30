//! How a multiplex takes packets that are lent, and closes inputs.

ghost use Rattle.std.specs.Prelude.{◌≡◌, ◌≢◌, ◌+◌, ◌-◌, ◌*◌, ◌<◌, ◌≤◌, ◌⊎◌, ◌==◌, true, false, IfSome, IfNone, Some, None, length};
ghost use Rattle.std.specs.List.{slice_get, Contains};
ghost use Rattle.request.specs.declared.stream.Stream.{Stream};
ghost use Rattle.mux.specs.declared.event.Event.{Event};
ghost use Rattle.schedule.specs.Schedule.{number_for};
ghost use Rattle.schedule.specs.Streams.{all_streams};
ghost use Rattle.mux.specs.History.{has_stream, with_event, in_force, plan_in_force, is_mapped_to, is_closed, last_stamp, queue};
ghost use Rattle.mux.specs.Lawful.{input_count, is_mapped, is_early, Full, refusal_of, MayTake, MayNoteFull, MayNoteEarly, IsLawful};
ghost use Rattle.mux.specs.Answers.{OfferAnswers};
ghost use Rattle.mux.specs.Keeping.{state_of};

use crate::event::Event;
use crate::input_state::InputState;
use crate::mux::Mux;
use crate::mux::switching::has_stream;
use crate::offered::Offered;
use request::Stream;
use tspkt::LentPacket;

impl Mux {
    /// What is kept of an input.
    fn state(&self, input: usize) -> InputState
        requires { input < input_count self.now.run.schedule }
        ensures { result ≡ state_of self.now.run.schedule self.now.events input }
    {
        self.inputs[input]
    }

    /// Whether a packet of this time belongs to the plan in force.
    fn is_in_span(&self, stamp: u64) -> bool
        ensures { result ≡ true → number_for self.now.run.schedule stamp ≡ in_force self.now.events }
    {
        self.span.begins <= stamp && stamp < self.span.ends
    }

    /// Whether a packet belongs to a later plan than the one in force.
    fn is_early(&self, item: &LentPacket) -> bool
        ensures { result ≡ is_early self.now.run.schedule self.now.events item.now }
    {
        self.span.number < self.schedule.number_for(item.stamp())
    }

    /// The place in the schedule of the stream that a packet is mapped to by the plan that it belongs to.
    fn find(&self, input: usize, item: &LentPacket) -> Option<usize>
        ensures found { IfSome result (λ place. (stream : Stream)
            × (slice_get (all_streams self.now.run.schedule) place ≡ Some stream)
            × (is_mapped_to self.now.run.schedule stream input item.now ≡ true)) }
        ensures none { IfNone result (is_mapped self.now.run.schedule input item.now ≡ false) }
    {
        self.schedule.find(input, item.pid(), item.stamp())
    }

    /// The stream at this place of the schedule.
    fn stream(&self, place: usize) -> Stream
        requires { place < length (all_streams self.now.run.schedule) }
        ensures { slice_get (all_streams self.now.run.schedule) place ≡ Some result }
    {
        self.schedule.streams()[place]
    }

    /// Whether the plan in force has a stream.
    fn is_in_force(&self, stream: Stream) -> bool
        ensures { result ≡ has_stream (plan_in_force self.now.run.schedule self.now.events) stream }
    {
        has_stream(self.plan(), &stream)
    }

    /// Whether the queue of a stream is full.
    fn is_full(&self, place: usize, stream: Stream) -> bool
        requires { slice_get (all_streams self.now.run.schedule) place ≡ Some stream }
        ensures { result
            ≡ (length (queue self.now.run.schedule stream self.now.events) == self.now.run.schedule.first.request.queue) }
    {
        self.queues[place].is_full()
    }

    /// Notes that the queue of a stream is full.
    fn note_full(&mut self, stream: Stream)
        requires may { MayNoteFull self.old.run.schedule self.old.events stream.input stream }
        ensures { self.new ≡ with_event self.old (Event.Full stream.input stream) }
    {
        self.past.add(Event::Full(stream.input, stream));
        self.inputs[stream.input].full_noted = true;
        self.is_noted = true;
    }

    /// Notes that the next packet of an input belongs to a later plan.
    fn note_early(&mut self, input: usize)
        requires may { MayNoteEarly self.old.run.schedule self.old.events input }
        ensures { self.new ≡ with_event self.old (Event.Early input) }
    {
        self.past.add(Event::Early(input));
        self.inputs[input].early_noted = true;
        self.is_noted = true;
    }

    /// Takes a packet of a stream in force.
    fn add(&mut self, place: usize, stream: Stream, item: &LentPacket)
        requires place { slice_get (all_streams self.old.run.schedule) place ≡ Some stream }
        requires in_force { has_stream (plan_in_force self.old.run.schedule self.old.events) stream ≡ true }
        requires mapped { is_mapped_to self.old.run.schedule stream stream.input item.now ≡ true }
        requires may { MayTake self.old.run.schedule self.old.events stream.input item.now }
        ensures { self.new ≡ with_event self.old (Event.Took stream.input item.now) }
    {
        self.past.add(Event::Took(stream.input, item.stamped()));
        self.inputs[stream.input].last_stamp = item.stamp();
        let queue = &mut self.queues[place];
        let _ = queue.offer(item.stamped());
        self.heads.set(place, queue.head_time());
        let peak = &mut self.peaks[place];
        peak.queued = peak.queued.max(queue.len() as u64);
    }

    /// Takes a packet of a stream that isn't in force any more: it is dropped at once.
    fn drop_late(&mut self, stream: Stream, item: &LentPacket)
        requires stream { Contains (all_streams self.old.run.schedule) stream }
        requires gone { has_stream (plan_in_force self.old.run.schedule self.old.events) stream ≡ false }
        requires mapped { is_mapped_to self.old.run.schedule stream stream.input item.now ≡ true }
        requires may { MayTake self.old.run.schedule self.old.events stream.input item.now }
        ensures { self.new ≡ with_event self.old (Event.Took stream.input item.now) }
    {
        self.past.add(Event::Took(stream.input, item.stamped()));
        let state = &mut self.inputs[stream.input];
        state.last_stamp = item.stamp();
        state.dropped = state.dropped.saturating_add(1);
    }

    /// Takes a packet of a stream in force, unless its queue is full.
    #[inline(always)]
    fn offer_queued(&mut self, place: usize, stream: Stream, item: &LentPacket) -> Offered
        requires place { slice_get (all_streams self.old.run.schedule) place ≡ Some stream }
        requires in_force { has_stream (plan_in_force self.old.run.schedule self.old.events) stream ≡ true }
        requires mapped { is_mapped_to self.old.run.schedule stream stream.input item.now ≡ true }
        // Nothing but a full queue is against it.
        requires refusal { (refusal_of self.old.run.schedule self.old.events stream.input item.now ≡ None)
            ⊎ (refusal_of self.old.run.schedule self.old.events stream.input item.now ≡ Some Full) }
        ensures answer { OfferAnswers self.old stream.input item.now result self.new }
        ensures run { self.new.run ≡ self.old.run }
        ensures mapped { result ≢ Offered.Stranger }
    {
        self.known();
        item.known();
        if self.is_full(place, stream) {
            if !self.state(stream.input).full_noted {
                self.note_full(stream);
            }
            return Offered::Full;
        }
        self.add(place, stream, item);
        Offered::Taken
    }

    /// Takes a packet by the plan that it belongs to: one of a later plan is too early; one of an earlier plan is queued where its stream
    /// is still in force, and dropped where it isn't.
    #[inline(never)]
    fn offer_across(&mut self, place: usize, stream: Stream, item: &LentPacket) -> Offered
        requires place { slice_get (all_streams self.old.run.schedule) place ≡ Some stream }
        requires mapped { is_mapped_to self.old.run.schedule stream stream.input item.now ≡ true }
        requires open_ { is_closed stream.input self.old.events ≡ false }
        requires order { last_stamp stream.input self.old.events ≤ item.now.stamp }
        ensures answer { OfferAnswers self.old stream.input item.now result self.new }
        ensures run { self.new.run ≡ self.old.run }
        ensures mapped { result ≢ Offered.Stranger }
    {
        self.known();
        item.known();
        if self.is_early(item) {
            if !self.state(stream.input).early_noted {
                self.note_early(stream.input);
            }
            return Offered::Early;
        }
        if self.is_in_force(stream) {
            return self.offer_queued(place, stream, item);
        }
        self.drop_late(stream, item);
        Offered::Taken
    }

    /// Takes a packet of an input, where nothing is against it: the input wasn't closed, the plan that the packet belongs to maps
    /// the packet's PID, its time isn't before that of the input's packet last taken, that plan isn't a later one than the plan in
    /// force, and the queue of its stream isn't full. The answer is the first reason against it that applies; no memory is asked
    /// for. The first `Early` and the first `Full` of an input since the last slot or switch add an event. A packet of an earlier
    /// plan whose stream isn't in force any more is taken, and dropped at once.
    pub fn offer(&mut self, input: usize, item: &LentPacket) -> Offered
        requires { input < input_count self.old.run.schedule }
        ensures answer { OfferAnswers self.old input item.now result self.new }
        ensures run { self.new.run ≡ self.old.run }
    {
        match self.find(input, item) {
            Some(place) => self.offer_to(place, item),
            None if self.state(input).closed => Offered::Closed,
            None => Offered::Stranger,
        }
    }

    /// Takes a packet as `offer` does, without a look-up: by the place in the schedule of the stream that the packet's PID is mapped to by
    /// the plan that it belongs to, and whose input it comes from. So it is never a `Stranger`.
    pub fn offer_to(&mut self, place: usize, item: &LentPacket) -> Offered
        requires { (stream : Stream)
            × (slice_get (all_streams self.old.run.schedule) place ≡ Some stream)
            × (is_mapped_to self.old.run.schedule stream stream.input item.now ≡ true) }
        ensures answer { (stream : Stream)
            → slice_get (all_streams self.old.run.schedule) place ≡ Some stream
            → OfferAnswers self.old stream.input item.now result self.new }
        ensures run { self.new.run ≡ self.old.run }
        ensures mapped { result ≢ Offered.Stranger }
    {
        self.known();
        let stream = self.stream(place);
        let state = self.state(stream.input);
        if state.closed {
            return Offered::Closed;
        }
        if item.stamp() < state.last_stamp {
            return Offered::Backward;
        }
        if self.is_in_span(item.stamp()) {
            self.offer_queued(place, stream, item)
        } else {
            self.offer_across(place, stream, item)
        }
    }

    /// Closes an input. A second close changes nothing.
    pub fn close_input(&mut self, input: usize)
        requires { input < input_count self.old.run.schedule }
        ensures first { is_closed input self.old.events ≡ false
            → self.new ≡ with_event self.old (Event.Close input) }
        ensures again { is_closed input self.old.events ≡ true → self.new ≡ self.old }
        ensures run { self.new.run ≡ self.old.run }
    {
        if !self.inputs[input].closed {
            self.past.add(Event::Close(input));
            self.inputs[input].closed = true;
        }
    }
}
