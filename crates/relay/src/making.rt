//! Makes a relay.

ghost use Rattle.std.specs.Prelude.{◌≡◌, ◌+◌, ◌≤◌, length, IfOk};
ghost use Rattle.rtrb.specs.Ring.{sent, known_free, SameProducer};
ghost use Rattle.relay.specs.Relays.{IsNewRelay};

use crate::block_receiver::BlockReceiver;
use crate::block_sender::BlockSender;
use crate::empty_blocks::EmptyBlocks;
use crate::nothing_after_end::NothingAfterEnd;
use crate::room::ROOM;
use rtrb::{Producer, RingBuffer};
use std::alloc::{AllocError, Global};
use tspkt::Packet;

/// Makes so many empty blocks, which the sender finds as it will find those that come back.
fn fill(
    alloc: Global,
    blocks: usize,
    empties: &mut Producer<Vec<Packet>, Global, EmptyBlocks>,
) -> Result<(), AllocError>
    requires { blocks ≤ known_free empties.old }
    ensures ring { SameProducer empties.old empties.new }
    ensures sent { IfOk result (λ _. length (sent empties.new) ≡ length (sent empties.old) + blocks) }
{
    for _block in 0..blocks {
        empties.push_reserved(Vec::with_capacity(alloc, ROOM)?);
    }
    Ok(())
}

/// A relay with so many empty blocks: the most that can be on their way, since whoever sends the first brings a block of its own.
/// `Err` is want of memory.
pub fn relay(alloc: Global, blocks: usize) -> Result<(BlockSender, BlockReceiver), AllocError>
    ensures { IfOk result (λ r. IsNewRelay blocks r.0 r.1) }
{
    // A place more for the end mark, and for the block that the first call of `send` brings.
    let places = blocks.saturating_add(1);
    let (producer, consumer) = RingBuffer::with_protocol::<Global, NothingAfterEnd>(alloc, places)?;
    let (mut empties, returned) = RingBuffer::with_protocol::<Global, EmptyBlocks>(alloc, places)?;
    fill(alloc, blocks, &mut empties)?;
    Ok((
        BlockSender {
            producer,
            empties: returned,
        },
        BlockReceiver {
            consumer,
            empties,
            is_ended: false,
        },
    ))
}
