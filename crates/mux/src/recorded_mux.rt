//! A multiplex that keeps what it sends.

ghost use Rattle.std.specs.Prelude.{◌≡◌, ◌≢◌, ◌<◌, ◌≤◌, ◌^◌, true, false, IsOk, IfOk, Some};
ghost use Rattle.std.specs.List.{slice_get};
ghost use Rattle.tspkt.specs.declared.stamped.Stamped.{Stamped as TakenPacket};
ghost use Rattle.mux.specs.declared.event.Event.{Event};
ghost use Rattle.mux.specs.History.{opened, with_event, is_closed, slots, emitted};
ghost use Rattle.mux.specs.Lawful.{input_count};
ghost use Rattle.mux.specs.Answers.{TakeAnswers, SlotAnswers};

use crate::mux::Mux;
use crate::slot::{Slot, without_packet};
use crate::taken::Taken;
use schedule::Schedule;
use std::alloc::{AllocError, Global};
use std::marker::Model;
use tspkt::{Packet, Stamped};

/// A multiplex that keeps each packet that it sends: 188 bytes a slot. Contracts see it as they see the multiplex, as its
/// history.
#[derive(Drop)]
pub struct RecordedMux {
    mux: Mux,
    packets: Vec<Packet>,
}

impl Model for RecordedMux {
    ghost use Rattle.std.specs.Prelude.{◌≡◌};
    ghost use Rattle.mux.specs.History.{History, emitted};

    ghost Value = { History };

    ghost view = { λ m. m.mux };

    ghost invariant = { λ m. m.packets.items ≡ emitted m.mux.run.schedule m.mux.events };
}

impl RecordedMux {
    /// A multiplex of this schedule with nothing taken or sent, for at most this many slots (at most 2^40).
    pub fn open(alloc: Global, schedule: Schedule, slots: u64) -> Result<RecordedMux, AllocError>
        requires { slots ≤ 2 ^ 40 }
        ensures { IfOk result (λ m. m ≡ opened schedule slots) }
    {
        Ok(RecordedMux {
            mux: Mux::open(alloc, schedule, slots)?,
            packets: Vec::new(alloc),
        })
    }

    /// The multiplex, lent.
    pub fn mux(&self) -> &Mux
        ensures { result.now ≡ self.now }
    {
        &self.mux
    }

    /// The packet of a slot that was sent.
    pub fn emitted(&self, slot: u64) -> Packet
        requires { slot < slots self.now.events }
        ensures { slice_get (emitted self.now.run.schedule self.now.events) slot ≡ Some result }
    {
        self.packets[slot as usize]
    }

    /// Takes a packet of an input as `Mux::offer` does, by value: each refusal hands it back. No memory is asked for.
    pub fn take(&mut self, input: usize, item: Stamped) -> Taken
        requires { input < input_count self.old.run.schedule }
        ensures answer { TakeAnswers self.old input item result self.new }
        ensures run { self.new.run ≡ self.old.run }
        ensures unrefused { (back : TakenPacket) → result ≢ Taken.Memory back }
    {
        self.mux.take(input, item)
    }

    /// Closes an input. A second close changes nothing. It is always `Ok`: no memory is asked for.
    pub fn close(&mut self, input: usize) -> Result<(), AllocError>
        requires { input < input_count self.old.run.schedule }
        ensures first { is_closed input self.old.events ≡ false
            → self.new ≡ with_event self.old (Event.Close input) }
        ensures again { is_closed input self.old.events ≡ true → self.new ≡ self.old }
        ensures unrefused { IsOk result }
        ensures run { self.new.run ≡ self.old.run }
    {
        self.mux.close(input)
    }

    /// Sends the next slot as `Mux::send_next` does, keeps its packet, and answers it. Where the slot could be sent and there
    /// is no memory for its packet the answer is `Memory`, and nothing changed. A switch asks for no memory.
    pub fn slot(&mut self) -> Slot
        ensures answer { SlotAnswers self.old result self.new }
        ensures run { self.new.run ≡ self.old.run }
    {
        if let Some(answer) = self.mux.hindrance() {
            return without_packet(answer);
        }
        if !self.mux.is_switch_due() && self.packets.reserve(1).is_err() {
            return Slot::Memory;
        }
        let answer = self.mux.slot();
        if let Slot::Sent(packet) = &answer {
            self.packets.push_reserved(*packet);
        }
        answer
    }
}
