//! How a multiplex sends its slots.

ghost use Rattle.std.specs.Prelude.{◌≡◌, ◌≢◌, ◌+◌, ◌-◌, ◌*◌, ◌<◌, ◌≤◌, true, false, IfSome, IfNone, Some, None};
ghost use Rattle.std.specs.List.{slice_get};
ghost use Rattle.request.specs.declared.stream.Stream.{Stream};
ghost use Rattle.rounds.specs.Rounds.{IsPlace};
ghost use Rattle.schedule.specs.Schedule.{slot_time};
ghost use Rattle.schedule.specs.Streams.{all_streams};
ghost use Rattle.emission.specs.Emission.{table_packet_at, counted_behind};
ghost use Rattle.mux.specs.declared.event.Event.{Event};
ghost use Rattle.mux.specs.declared.content.Content.{Content};
ghost use Rattle.mux.specs.History.{with_event, in_force, plan_in_force, queue, slots, emitted};
ghost use Rattle.mux.specs.Lawful.{IsDone, AllReady, is_switch_due, table_due, IsContent, MaySend};
ghost use Rattle.mux.specs.Answers.{SendAnswers, SendsOn, GoesOut, IsRunning, IsUnswitched, IsLeastUnready};

use crate::candidate::Candidate;
use crate::choice::{all_closed, all_empty, choose, clear_notes, first_unready};
use crate::content::Content;
use crate::event::Event;
use crate::mux::Mux;
use crate::outgoing::Outgoing;
use crate::sending::Sending;
use request::Stream;
use rounds::TablePlace;
use tspkt::Packet;

impl Mux {
    /// Whether all inputs are closed, and nothing waits.
    fn is_done(&self) -> bool
        ensures done { result ≡ true → IsDone self.now.run.schedule self.now.events }
        ensures running { result ≡ false → IsDone self.now.run.schedule self.now.events → ⊥ }
    {
        all_closed(self.inputs.as_slice()) && all_empty(self.queues.as_slice())
    }

    /// Whether the run has all its slots.
    fn is_run_full(&self) -> bool
        ensures full { result ≡ true → self.now.run.limit ≤ slots self.now.events }
        ensures within { result ≡ false → slots self.now.events < self.now.run.limit }
    {
        self.limit <= self.progress.slot()
    }

    /// When the next slot goes out, in ticks of 27 MHz.
    fn now(&self) -> u64
        ensures { result ≡ slot_time self.now.run.schedule.first (slots self.now.events) }
    {
        self.progress.time()
    }

    /// The least input that isn't ready for the next slot, which goes out now.
    fn unready(&self, now: u64) -> Option<usize>
        requires { now ≡ slot_time self.now.run.schedule.first (slots self.now.events) }
        ensures none { IfNone result (AllReady self.now.run.schedule self.now.events) }
        ensures some { IfSome result (IsLeastUnready self.now) }
    {
        first_unready(self.inputs.as_slice(), now)
    }

    /// The stream that the next slot carries, which has no table, or none where it carries null.
    #[inline(always)]
    fn next(&self, now: u64) -> Option<Candidate>
        requires now { now ≡ slot_time self.now.run.schedule.first (slots self.now.events) }
        requires no_table { table_due self.now.run.schedule self.now.events ≡ None }
        ensures none { IfNone result (IsContent self.now.run.schedule self.now.events Content.Null) }
        ensures some { IfSome result (λ c.
            (slice_get (all_streams self.now.run.schedule) c.index ≡ Some c.stream)
            × IsContent self.now.run.schedule self.now.events (Content.Elementary c.stream)) }
    {
        choose(
            self.schedule.streams(),
            self.queues.as_slice(),
            &self.heads,
            &self.progress,
            now,
        )
    }

    /// The table packet whose turn it is in the next slot, or none where that has no table.
    fn table_due(&self) -> Option<TablePlace>
        ensures { result ≡ table_due self.now.run.schedule self.now.events }
    {
        self.turn.next()
    }

    /// A table packet of the plan in force, with the counter that comes next on its PID.
    fn table_packet(&self, place: TablePlace) -> Packet
        requires { IsPlace (plan_in_force self.now.run.schedule self.now.events).rounds place }
        ensures { result ≡ counted_behind (emitted self.now.run.schedule self.now.events)
            (table_packet_at (plan_in_force self.now.run.schedule self.now.events).tables place) }
    {
        self.known();
        let plan = self.plan();
        let packet = match place {
            TablePlace::Fast(k) => plan.fast_packets()[k],
            TablePlace::Slow(k) => plan.slow_packets()[k],
        };
        packet.with_counter(self.output.counter(packet.pid()))
    }

    /// Sends the table packet whose turn it is.
    fn send_table<O: Outgoing>(&mut self, place: TablePlace, out: &mut O)
        requires due { table_due self.old.run.schedule self.old.events ≡ Some place }
        requires within { slots self.old.events < self.old.run.limit }
        requires may { MaySend self.old.run.schedule self.old.events (Content.Table place) }
        requires room { 0 < O.room out.old }
        ensures event { self.new ≡ with_event self.old (Event.Slot (Content.Table place)) }
        ensures out { GoesOut self.old (Content.Table place) (O.packets out.old) (O.packets out.new) }
        ensures room { O.room out.old ≤ O.room out.new + 1 }
    {
        let packet = self.table_packet(place);
        self.output.push(&packet);
        out.add(&packet);
        self.past.add(Event::Slot(Content::Table(place)));
        clear_notes(&mut self.inputs, &mut self.is_noted);
        self.progress.pass();
        self.turn.advance();
        self.counts.tables += 1;
    }

    /// Sends a null packet.
    fn send_null<O: Outgoing>(&mut self, out: &mut O)
        requires within { slots self.old.events < self.old.run.limit }
        requires may { MaySend self.old.run.schedule self.old.events Content.Null }
        requires room { 0 < O.room out.old }
        ensures event { self.new ≡ with_event self.old (Event.Slot Content.Null) }
        ensures out { GoesOut self.old Content.Null (O.packets out.old) (O.packets out.new) }
        ensures room { O.room out.old ≤ O.room out.new + 1 }
    {
        out.add_null(self.output.null());
        self.output.push(out.last());
        self.past.add(Event::Slot(Content::Null));
        clear_notes(&mut self.inputs, &mut self.is_noted);
        self.progress.pass();
        self.turn.advance();
        self.counts.null += 1;
    }

    /// Sends the head of a stream's queue.
    fn send_head<O: Outgoing>(&mut self, index: usize, stream: Stream, now: u64, out: &mut O)
        requires now { now ≡ slot_time self.old.run.schedule.first (slots self.old.events) }
        requires index { slice_get (all_streams self.old.run.schedule) index ≡ Some stream }
        requires within { slots self.old.events < self.old.run.limit }
        requires may { MaySend self.old.run.schedule self.old.events (Content.Elementary stream) }
        requires room { 0 < O.room out.old }
        ensures event { self.new ≡ with_event self.old (Event.Slot (Content.Elementary stream)) }
        ensures out { GoesOut self.old (Content.Elementary stream) (O.packets out.old) (O.packets out.new) }
        ensures room { O.room out.old ≤ O.room out.new + 1 }
    {
        // Here, before anything is written, the compiler takes what the choice made of it.
        let bucket = self.progress.bucket(index);
        let item = self.queues[index].head().unwrap();
        let delay = now - item.stamp;
        out.add_rewritten(&item.packet, stream.output_pid, delay);
        self.output.push(out.last());
        let queue = &mut self.queues[index];
        let _ = queue.take();
        self.heads.set(index, queue.head_time());
        let peak = &mut self.peaks[index];
        peak.delay = peak.delay.max(delay);
        self.past.add(Event::Slot(Content::Elementary(stream)));
        clear_notes(&mut self.inputs, &mut self.is_noted);
        self.progress.send(index, bucket);
        self.inputs[stream.input].sent += 1;
        self.turn.advance();
        self.counts.elementary += 1;
    }

    /// Sends the next slot, for which all inputs are ready.
    fn send<O: Outgoing>(&mut self, now: u64, out: &mut O)
        requires now { now ≡ slot_time self.old.run.schedule.first (slots self.old.events) }
        requires running { IsDone self.old.run.schedule self.old.events → ⊥ }
        requires within { slots self.old.events < self.old.run.limit }
        requires switched { is_switch_due self.old.run.schedule self.old.events ≡ false }
        requires ready { AllReady self.old.run.schedule self.old.events }
        requires room { 0 < O.room out.old }
        ensures sent { (c : Content) × MaySend self.old.run.schedule self.old.events c
            × (self.new ≡ with_event self.old (Event.Slot c)) × GoesOut self.old c (O.packets out.old) (O.packets out.new) }
        ensures room { O.room out.old ≤ O.room out.new + 1 }
    {
        match self.table_due() {
            Some(place) => self.send_table(place, out),
            None => match self.next(now) {
                None => self.send_null(out),
                Some(best) => self.send_head(best.index, best.stream, now, out),
            },
        }
    }

    /// What keeps the multiplex from going on, if anything does: the run is done, it has all its slots, or, where no switch is due, an
    /// input isn't ready; in this order.
    pub(crate) fn hindrance(&self) -> Option<Sending>
        ensures some { IfSome result (λ answer. SendAnswers self.now answer self.now) }
        ensures unsent { result ≢ Some Sending.Sent }
        ensures unswitched { result ≢ Some Sending.Switched }
        ensures none { IfNone result (IsRunning self.now × (IsUnswitched self.now → AllReady self.now.run.schedule self.now.events)) }
    {
        if self.is_done() {
            return Some(Sending::Done);
        }
        if self.is_run_full() {
            return Some(Sending::RunFull);
        }
        if self.is_switch_due() {
            return None;
        }
        self.unready(self.now()).map(Sending::NotReady)
    }

    /// Sends the next slot, where the run isn't done, has slots left, no switch is due, and each input is ready; in this order. Where a
    /// switch is due the next plan comes into force and nothing is sent: what waits of streams that it doesn't have is dropped, its
    /// tables begin, and all else goes on.
    ///
    /// An input is ready where it is closed, or its packet last taken comes after the slot, or a full queue of it, or an early packet, was
    /// noted since the last slot or switch. A table slot carries its table packet. Each other slot carries, of the packets that wait
    /// first in their streams' queues, are due, and leave no more than 512 bytes in their streams' transport buffers at
    /// each byte, the one of the least time, of equal times that with the least output PID; or a null packet where there
    /// is none. A packet that its buffer has no room for holds back no packet of another stream. No memory is asked for.
    ///
    /// The packet goes behind those that `out` has, for which it needs room; where none is sent `out` stays as it is.
    pub fn send_next<O: Outgoing>(&mut self, out: &mut O) -> Sending
        requires { 0 < O.room out.old }
        ensures answer { SendAnswers self.old result self.new }
        ensures sent { result ≡ Sending.Sent → SendsOn self.old self.new (O.packets out.old) (O.packets out.new) }
        ensures unsent { result ≢ Sending.Sent → out.new ≡ out.old }
        ensures room { O.room out.old ≤ O.room out.new + 1 }
        ensures run { self.new.run ≡ self.old.run }
    {
        if let Some(answer) = self.hindrance() {
            return answer;
        }
        if self.is_switch_due() {
            self.switch();
            return Sending::Switched;
        }
        self.send(self.now(), out);
        Sending::Sent
    }
}
