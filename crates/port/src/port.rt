//! The end of a ring that sends.

ghost use Rattle.std.specs.Prelude.{◌≡◌, ◌++◌, ◌∷◌, [], true, false, MatchBool, MatchResult};

use crate::carried::Carried;
use crate::finished_port::FinishedPort;
use crate::nothing_after_end::NothingAfterEnd;
use rtrb::Producer;
use std::alloc::Global;
use std::marker::Model;
use tspkt::{LentPacket, Stamped};

/// The sending end of an input's ring. Contracts see which ring it is, and the packets that it sent. It can go to another
/// thread, and none of its calls locks, waits or asks for memory.
#[derive(Drop)]
pub struct Port {
    pub(crate) input: usize,
    pub(crate) producer: Producer<Carried, Global, NothingAfterEnd>,
}

impl Model for Port {
    ghost use Rattle.std.specs.Prelude.{◌≡◌};
    ghost use Rattle.rtrb.specs.Ring.{sent};
    ghost use Rattle.port.specs.Arrivals.{packets_of, marks_of};
    ghost use Rattle.port.specs.Rings.{PortValue, ring_id};

    ghost Value = { PortValue };

    ghost view = { λ p. record {
      ring = ring_id p.producer.end p.input;
      sent = packets_of (sent p.producer);
    } };

    ghost invariant = { λ p. marks_of (sent p.producer) ≡ 0 };
}

impl Port {
    /// Sends a packet of the input. Where no free place is seen in the ring the packet comes back, and nothing changed.
    pub fn offer(&mut self, item: Stamped) -> Result<(), Stamped>
        ensures ring { self.new.ring ≡ self.old.ring }
        ensures sent { MatchResult result
            (λ _. self.new ≡ record self.old { sent = self.old.sent ++ item ∷ [] })
            (λ back. (back ≡ item) × (self.new ≡ self.old)) }
    {
        if self.send(&item) { Ok(()) } else { Err(item) }
    }

    /// Sends a copy of a packet of the input. False is answered where no free place is seen in the ring, and then nothing
    /// changed.
    pub fn send(&mut self, item: &Stamped) -> bool
        ensures ring { self.new.ring ≡ self.old.ring }
        ensures sent { MatchBool result
            (self.new ≡ record self.old { sent = self.old.sent ++ item.now ∷ [] })
            (self.new ≡ self.old) }
    {
        self.send_for(usize::MAX, &LentPacket::of(item))
    }

    /// Sends it as `send` does, and beside it what its sender takes to be the place in the schedule of the packet's stream. The ring's
    /// end hands this on, as `place`, for whoever takes the packet to test: nothing is promised of it.
    #[tactic(auto, using(crate::proofs::RingLaws::same_id, crate::proofs::ArrivalLaws::packets_of_snoc, crate::proofs::ArrivalLaws::marks_of_snoc))]
    pub fn send_for(&mut self, place: usize, item: &LentPacket) -> bool
        ensures ring { self.new.ring ≡ self.old.ring }
        ensures sent { MatchBool result
            (self.new ≡ record self.old { sent = self.old.sent ++ item.now ∷ [] })
            (self.new ≡ self.old) }
    {
        let Port { producer, .. } = self;
        if producer.is_full() {
            return false;
        }
        let place = u32::try_from(place).unwrap_or(u32::MAX);
        producer.push_reserved(Carried::packet(item, place));
        true
    }

    /// Sends the end mark, and nothing after it. Where no free place is seen in the ring the port comes back, unchanged.
    #[tactic(auto, using(crate::proofs::RingLaws::same_id, crate::proofs::ArrivalLaws::packets_of_mark, crate::proofs::ArrivalLaws::marks_of_mark))]
    pub fn end(self) -> Result<FinishedPort, Port>
        ensures { MatchResult result
            (λ finished. (finished.port ≡ self) × (finished.is_ended ≡ true))
            (λ port. port ≡ self) }
    {
        let Port {
            input,
            mut producer,
        } = self;
        match producer.push(Carried::end()) {
            Ok(()) => Ok(FinishedPort {
                input,
                producer,
                is_ended: true,
            }),
            Err(_) => Err(Port { input, producer }),
        }
    }

    /// Sends nothing more, and no end mark.
    pub fn finish(self) -> FinishedPort
        ensures port { result.port ≡ self }
        ensures unmarked { result.is_ended ≡ false }
    {
        FinishedPort {
            input: self.input,
            producer: self.producer,
            is_ended: false,
        }
    }
}
