//! Relays of blocks.

ghost use Rattle.std.specs.Prelude.{◌≡◌, ◌≤◌, vec_capacity, IfOk};
ghost use Rattle.relay.specs.Messages.{block_room};

use relay::{BlockReceiver, BlockSender, KEPT, Message, ROOM, relay};
use std::alloc::{AllocError, Global};
use std::test::Fail;
use tspkt::{Packet, null};

/// A block of one packet.
fn block_of_one(alloc: Global) -> Result<Vec<Packet>, AllocError>
    ensures { IfOk result (λ block. block_room ≤ vec_capacity block) }
{
    let mut block = Vec::with_capacity(alloc, ROOM)?;
    block.push(null())?;
    Ok(block)
}

/// Puts a packet behind those of the block, and sends it.
fn send_one(sender: &mut BlockSender, block: &mut Vec<Packet>) -> Result<bool, AllocError>
    requires { block_room ≤ vec_capacity block.old }
    ensures relay { sender.new.relay ≡ sender.old.relay }
    ensures room { block_room ≤ vec_capacity block.new }
{
    block.push(null())?;
    Ok(sender.send(block))
}

/// How many packets the next block has, which goes back; none where no block comes.
fn next_size(receiver: &mut BlockReceiver) -> Option<usize>
    ensures { receiver.new.relay ≡ receiver.old.relay }
{
    match receiver.next() {
        Some(Message::Block(block)) => {
            let size = block.len();
            receiver.give_back(block).ok().map(|_| size)
        }
        _ => None,
    }
}

#[test]
fn a_block_goes_through_and_comes_back_empty(rt: HostRuntime) -> Result<(), Fail> {
    let alloc = rt.alloc();
    let (mut sender, mut receiver) = relay(alloc, 1)?;
    let mut block = block_of_one(alloc)?;
    assert!(rt; receiver.next().is_none());
    assert!(rt; send_one(&mut sender, &mut block)?);
    assert_eq!(rt; block.len(), 0);
    // The other block is still on its way.
    assert!(rt; !send_one(&mut sender, &mut block)?);
    assert_eq!(rt; block.len(), 1);
    assert_eq!(rt; next_size(&mut receiver), Some(2));
    assert_eq!(rt; next_size(&mut receiver), None);
    assert!(rt; send_one(&mut sender, &mut block)?);
    assert_eq!(rt; block.len(), 0);
    assert!(rt; !send_one(&mut sender, &mut block)?);
    assert_eq!(rt; next_size(&mut receiver), Some(2));
    assert!(rt; sender.send(&mut block));
    assert_eq!(rt; next_size(&mut receiver), Some(1));
    Ok(())
}

#[test]
fn the_end_mark_comes_behind_all_blocks_and_the_rest_is_left(rt: HostRuntime) -> Result<(), Fail> {
    let alloc = rt.alloc();
    let (mut sender, mut receiver) = relay(alloc, 3)?;
    let mut block = block_of_one(alloc)?;
    assert!(rt; sender.send(&mut block));
    assert!(rt; send_one(&mut sender, &mut block)?);
    assert!(rt; sender.send(&mut block));
    let Ok(mut finished) = sender.end() else {
        return Ok(assert!(rt; false));
    };
    assert_eq!(rt; receiver.left(&mut finished), 3);
    assert_eq!(rt; next_size(&mut receiver), Some(1));
    assert_eq!(rt; receiver.left(&mut finished), 2);
    assert_eq!(rt; next_size(&mut receiver), Some(1));
    assert_eq!(rt; next_size(&mut receiver), Some(0));
    assert_eq!(rt; receiver.left(&mut finished), 0);
    assert!(rt; !receiver.is_ended());
    assert!(rt; matches!(receiver.next(), Some(Message::End)));
    assert!(rt; receiver.is_ended());
    assert!(rt; receiver.next().is_none());
    assert_eq!(rt; receiver.left(&mut finished), 0);
    Ok(())
}

#[test]
fn a_sender_without_an_empty_block_keeps_its_own(rt: HostRuntime) -> Result<(), Fail> {
    let alloc = rt.alloc();
    let (mut sender, mut receiver) = relay(alloc, 0)?;
    let mut block = block_of_one(alloc)?;
    assert!(rt; !sender.send(&mut block));
    assert_eq!(rt; block.len(), 1);
    let mut finished = sender.finish();
    assert_eq!(rt; receiver.left(&mut finished), 0);
    assert!(rt; receiver.next().is_none());
    assert!(rt; !receiver.is_ended());
    Ok(())
}

/// Offers a block of one packet.
fn offer_one(sender: &mut BlockSender, block: &mut Vec<Packet>) -> Result<bool, AllocError>
    requires { block_room ≤ vec_capacity block.old }
    ensures relay { sender.new.relay ≡ sender.old.relay }
    ensures room { block_room ≤ vec_capacity block.new }
{
    block.clear();
    block.push(null())?;
    Ok(sender.offer(block))
}

#[test]
fn the_last_empty_blocks_are_left_to_those_that_are_sent(rt: HostRuntime) -> Result<(), Fail> {
    let alloc = rt.alloc();
    let (mut sender, mut receiver) = relay(alloc, KEPT + 1)?;
    let mut block = block_of_one(alloc)?;
    assert!(rt; offer_one(&mut sender, &mut block)?);
    // As many are left as are kept: a block that is offered gets none of them, and one that is sent does.
    assert!(rt; !offer_one(&mut sender, &mut block)?);
    assert_eq!(rt; block.len(), 1);
    assert!(rt; sender.send(&mut block));
    assert_eq!(rt; next_size(&mut receiver), Some(1));
    assert!(rt; !offer_one(&mut sender, &mut block)?);
    assert_eq!(rt; next_size(&mut receiver), Some(1));
    assert!(rt; offer_one(&mut sender, &mut block)?);
    assert_eq!(rt; next_size(&mut receiver), Some(1));
    Ok(())
}
