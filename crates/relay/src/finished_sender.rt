//! What is left of a sender that sends no more.

use crate::empty_blocks::EmptyBlocks;
use crate::message::Message;
use crate::nothing_after_end::NothingAfterEnd;
use rtrb::{Consumer, Producer};
use std::alloc::Global;
use std::marker::Model;
use tspkt::Packet;

/// What is left of a sender that sends no more. Contracts see the sender as it was at its end, and whether the end mark was sent,
/// which then stands behind all blocks.
#[derive(Drop)]
pub struct FinishedSender {
    pub(crate) producer: Producer<Message, Global, NothingAfterEnd>,
    /// Kept so that contracts see which relay it is of.
    pub(crate) empties: Consumer<Vec<Packet>, Global, EmptyBlocks>,
    pub(crate) is_ended: bool,
}

impl Model for FinishedSender {
    ghost use Rattle.rtrb.specs.Ring.{sent};
    ghost use Rattle.relay.specs.Messages.{blocks_of, EndsMarked};
    ghost use Rattle.relay.specs.Relays.{FinishedValue, relay_id};

    ghost Value = { FinishedValue };

    ghost view = { λ f. record {
      sender = record { relay = relay_id f.producer.end f.empties.end; sent = blocks_of (sent f.producer) };
      is_ended = f.is_ended;
    } };

    ghost invariant = { λ f. EndsMarked f.is_ended (sent f.producer) };
}
