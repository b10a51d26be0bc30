//! The end of a relay that receives.

ghost use Rattle.std.specs.Prelude.{◌≡◌, ◌≤◌, ◌+◌, [], vec_capacity, IfSome, MatchResult};
ghost use Rattle.relay.specs.Messages.{block_room, HasRoom};
ghost use Rattle.relay.specs.Receiving.{IsReceived, IsLeft};

use crate::empty_blocks::EmptyBlocks;
use crate::finished_sender::FinishedSender;
use crate::message::Message;
use crate::nothing_after_end::NothingAfterEnd;
use rtrb::{Consumer, Producer, PushError};
use std::alloc::Global;
use std::marker::Model;
use tspkt::Packet;

/// The receiving end of a relay. Contracts see which relay it is, the blocks that came out of it, how many empty ones went to the
/// sender, and whether the end mark came. None of its calls locks, waits or asks for memory.
#[derive(Drop)]
pub struct BlockReceiver {
    pub(crate) consumer: Consumer<Message, Global, NothingAfterEnd>,
    /// Where blocks go back to the sender.
    pub(crate) empties: Producer<Vec<Packet>, Global, EmptyBlocks>,
    pub(crate) is_ended: bool,
}

impl Model for BlockReceiver {
    ghost use Rattle.std.specs.Prelude.{◌≡◌, length};
    ghost use Rattle.rtrb.specs.Ring.{received, sent};
    ghost use Rattle.relay.specs.Messages.{blocks_of, marks_of, mark_count};
    ghost use Rattle.relay.specs.Relays.{ReceiverValue, relay_id};

    ghost Value = { ReceiverValue };

    ghost view = { λ r. record {
      relay = relay_id r.consumer.end r.empties.end;
      received = blocks_of (received r.consumer);
      returned = length (sent r.empties);
      is_ended = r.is_ended;
    } };

    ghost invariant = { λ r. marks_of (received r.consumer) ≡ mark_count r.is_ended };
}

impl BlockReceiver {
    /// Takes what comes next: a block, or the end mark. `None` is answered where nothing is seen in the ring, and always behind the
    /// end mark.
    #[tactic(auto, using(crate::proofs::RelayLaws::same_rings, crate::proofs::RelayLaws::same_messages, crate::proofs::RelayLaws::same_empties, crate::proofs::MessageLaws::blocks_of_snoc, crate::proofs::MessageLaws::blocks_of_mark, crate::proofs::MessageLaws::marks_of_snoc, crate::proofs::MessageLaws::marks_of_mark, crate::proofs::MessageLaws::unmarked))]
    pub fn next(&mut self) -> Option<Message>
        ensures relay { self.new.relay ≡ self.old.relay }
        ensures received { IsReceived self.old result self.new }
        ensures room { IfSome result HasRoom }
    {
        let BlockReceiver {
            consumer,
            is_ended,
            ..
        } = self;
        match consumer.pop() {
            Ok(Message::Block(block)) => Some(Message::Block(block)),
            Ok(Message::End) => {
                *is_ended = true;
                Some(Message::End)
            }
            Err(_) => None,
        }
    }

    /// Gives a block back to the sender, with or without packets: they go no further. Where no free place is seen in the ring it is
    /// answered, empty. No more blocks are made with a relay than that ring has places, so none of its own finds it full.
    pub fn give_back(&mut self, block: Vec<Packet>) -> Result<(), Vec<Packet>>
        requires { block_room ≤ vec_capacity block }
        ensures { MatchResult result
            (λ _. self.new ≡ record self.old { returned = self.old.returned + 1 })
            (λ back. (back.items ≡ []) × (self.new ≡ self.old)) }
    {
        let mut block = block;
        block.clear();
        match self.empties.push(block) {
            Ok(()) => Ok(()),
            Err(PushError::Full(back)) => Err(back),
        }
    }

    /// Whether the end mark came.
    pub fn is_ended(&self) -> bool
        ensures { result ≡ self.now.is_ended }
    {
        self.is_ended
    }

    /// How many blocks didn't come out of it, of the sender that was made with this receiver and sends no more. The end mark isn't
    /// counted.
    pub fn left(&mut self, finished: &mut FinishedSender) -> u64
        requires { finished.old.sender.relay ≡ self.old.relay }
        ensures receiver { self.new ≡ self.old }
        ensures sender { finished.new ≡ finished.old }
        ensures left { IsLeft self.old finished.old result }
    {
        let FinishedSender {
            producer,
            is_ended,
            ..
        } = finished;
        let items = self.consumer.slots_beside(producer);
        let marks = if *is_ended && !self.is_ended { 1 } else { 0 };
        (items - marks) as u64
    }
}
