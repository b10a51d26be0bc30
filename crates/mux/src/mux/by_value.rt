//! The calls of a multiplex by value, as its users write them. Each is the call beside it that lends, and asks for no memory either: what
//! they answer for want of memory never comes.

ghost use Rattle.std.specs.Prelude.{◌≡◌, ◌≢◌, ◌<◌, true, false, IsOk};
ghost use Rattle.tspkt.specs.declared.stamped.Stamped.{Stamped as TakenPacket};
ghost use Rattle.mux.specs.declared.event.Event.{Event};
ghost use Rattle.mux.specs.History.{with_event, is_closed};
ghost use Rattle.mux.specs.Lawful.{input_count};
ghost use Rattle.mux.specs.Answers.{TakeAnswers, SlotAnswers};

use crate::mux::Mux;
use crate::offered::Offered;
use crate::one_packet::OnePacket;
use crate::outgoing::Outgoing;
use crate::sending::Sending;
use crate::slot::{Slot, without_packet};
use crate::taken::Taken;
use std::alloc::AllocError;
use tspkt::{LentPacket, Stamped};

impl Mux {
    /// Takes a packet of an input as `offer` does, by value: each refusal hands it back. `Memory` never comes.
    pub fn take(&mut self, input: usize, item: Stamped) -> Taken
        requires { input < input_count self.old.run.schedule }
        ensures answer { TakeAnswers self.old input item result self.new }
        ensures run { self.new.run ≡ self.old.run }
        ensures unrefused { (back : TakenPacket) → result ≢ Taken.Memory back }
    {
        match self.offer(input, &LentPacket::of(&item)) {
            Offered::Taken => Taken::Ok,
            Offered::Closed => Taken::Closed(item),
            Offered::Stranger => Taken::Stranger(item),
            Offered::Backward => Taken::Backward(item),
            Offered::Early => Taken::Early(item),
            Offered::Full => Taken::Full(item),
        }
    }

    /// Closes an input as `close_input` does. It is always `Ok`.
    pub fn close(&mut self, input: usize) -> Result<(), AllocError>
        requires { input < input_count self.old.run.schedule }
        ensures first { is_closed input self.old.events ≡ false
            → self.new ≡ with_event self.old (Event.Close input) }
        ensures again { is_closed input self.old.events ≡ true → self.new ≡ self.old }
        ensures unrefused { IsOk result }
        ensures run { self.new.run ≡ self.old.run }
    {
        self.close_input(input);
        Ok(())
    }

    /// Sends the next slot as `send_next` does, and answers its packet. `Memory` never comes.
    pub fn slot(&mut self) -> Slot
        ensures answer { SlotAnswers self.old result self.new }
        ensures run { self.new.run ≡ self.old.run }
        ensures unrefused { result ≢ Slot.Memory }
    {
        let mut place = OnePacket::new();
        match self.send_next(&mut place) {
            Sending::Sent => Slot::Sent(*place.last()),
            answer => without_packet(answer),
        }
    }
}
