//! The end of a relay that sends.

ghost use Rattle.std.specs.Prelude.{◌≡◌, ◌≤◌, ◌++◌, ◌∷◌, [], true, false, vec_capacity, MatchBool, MatchResult};
ghost use Rattle.relay.specs.Messages.{block_room};

use crate::empty_blocks::EmptyBlocks;
use crate::finished_sender::FinishedSender;
use crate::message::Message;
use crate::nothing_after_end::NothingAfterEnd;
use crate::room::KEPT;
use rtrb::{Consumer, Producer};
use std::alloc::Global;
use std::marker::Model;
use std::mem;
use tspkt::Packet;

/// The sending end of a relay. Contracts see which relay it is, and the blocks that it sent. It can go to another thread, and none
/// of its calls locks, waits or asks for memory.
#[derive(Drop)]
pub struct BlockSender {
    pub(crate) producer: Producer<Message, Global, NothingAfterEnd>,
    /// The blocks that came back.
    pub(crate) empties: Consumer<Vec<Packet>, Global, EmptyBlocks>,
}

impl Model for BlockSender {
    ghost use Rattle.std.specs.Prelude.{◌≡◌};
    ghost use Rattle.rtrb.specs.Ring.{sent};
    ghost use Rattle.relay.specs.Messages.{blocks_of, marks_of};
    ghost use Rattle.relay.specs.Relays.{SenderValue, relay_id};

    ghost Value = { SenderValue };

    ghost view = { λ s. record {
      relay = relay_id s.producer.end s.empties.end;
      sent = blocks_of (sent s.producer);
    } };

    ghost invariant = { λ s. marks_of (sent s.producer) ≡ 0 };
}

impl BlockSender {
    /// Sends a block, and leaves an empty one in its place. False is answered where no empty block is seen that came back, or no
    /// free place in the ring, and then nothing changed.
    #[tactic(auto, using(crate::proofs::RelayLaws::same_rings, crate::proofs::RelayLaws::same_messages, crate::proofs::RelayLaws::same_empties, crate::proofs::MessageLaws::blocks_of_snoc, crate::proofs::MessageLaws::marks_of_snoc))]
    pub fn send(&mut self, block: &mut Vec<Packet>) -> bool
        requires { block_room ≤ vec_capacity block.old }
        ensures relay { self.new.relay ≡ self.old.relay }
        ensures sent { MatchBool result
            ((self.new ≡ record self.old { sent = self.old.sent ++ block.old.items ∷ [] }) × (block.new.items ≡ []))
            ((self.new ≡ self.old) × (block.new.items ≡ block.old.items)) }
        ensures room { block_room ≤ vec_capacity block.new }
    {
        let BlockSender { producer, empties } = self;
        if producer.is_full() {
            return false;
        }
        let Ok(empty) = empties.pop() else {
            return false;
        };
        let full = mem::replace(block, empty);
        producer.push_reserved(Message::Block(full));
        true
    }

    /// Sends a block as `send` does, but leaves the last `KEPT` empty ones to `send`: false is answered too where no more are seen
    /// that came back, and then nothing changed. Where only full blocks are sent by `send`, and no empty one is left, the last `KEPT`
    /// that were sent are full.
    #[tactic(auto, using(crate::proofs::RelayLaws::same_rings, crate::proofs::RelayLaws::same_messages, crate::proofs::RelayLaws::same_empties))]
    pub fn offer(&mut self, block: &mut Vec<Packet>) -> bool
        requires { block_room ≤ vec_capacity block.old }
        ensures relay { self.new.relay ≡ self.old.relay }
        ensures sent { MatchBool result
            ((self.new ≡ record self.old { sent = self.old.sent ++ block.old.items ∷ [] }) × (block.new.items ≡ []))
            ((self.new ≡ self.old) × (block.new.items ≡ block.old.items)) }
        ensures room { block_room ≤ vec_capacity block.new }
    {
        if self.empties.slots() <= KEPT {
            return false;
        }
        self.send(block)
    }

    /// Sends the end mark, and nothing after it. Where no free place is seen in the ring the sender comes back, unchanged.
    #[tactic(auto, using(crate::proofs::RelayLaws::same_rings, crate::proofs::RelayLaws::same_messages, crate::proofs::RelayLaws::same_empties, crate::proofs::MessageLaws::blocks_of_mark, crate::proofs::MessageLaws::marks_of_mark))]
    pub fn end(self) -> Result<FinishedSender, BlockSender>
        ensures { MatchResult result
            (λ finished. (finished.sender ≡ self) × (finished.is_ended ≡ true))
            (λ sender. sender ≡ self) }
    {
        let BlockSender {
            mut producer,
            empties,
        } = self;
        match producer.push(Message::End) {
            Ok(()) => Ok(FinishedSender {
                producer,
                empties,
                is_ended: true,
            }),
            Err(_) => Err(BlockSender { producer, empties }),
        }
    }

    /// Sends nothing more, and no end mark.
    pub fn finish(self) -> FinishedSender
        ensures sender { result.sender ≡ self }
        ensures unmarked { result.is_ended ≡ false }
    {
        FinishedSender {
            producer: self.producer,
            empties: self.empties,
            is_ended: false,
        }
    }
}
